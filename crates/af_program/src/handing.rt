// Bytes go between a program and the queues before and after it.
ghost use Rattle.std.specs.Prelude.{◌≡◌, ◌<◌, length};
ghost use Rattle.af_program.specs.Acts.{RunsWhereTold};
ghost use Rattle.af_program.specs.Handing.{TakesInto, GivesFrom};

use crate::{Gave, Program, Queue, Took};

/// Takes what a program that runs gives to the end of a queue, as far as there is room. It comes through a buffer that is as long
/// as the room of the queue. NotYet also says that there is no room. Ended says that the program gives nothing any more.
pub fn take_into<P: Program, const ROOM: usize>(
    program: &mut P,
    buffer: &mut [u8],
    queue: &mut Queue<ROOM>,
) -> Gave
    requires buffer { length buffer.old ≡ ROOM }
    requires runs { RunsWhereTold (P.acts program.old) }
    ensures takes { TakesInto ROOM result queue.old queue.new (P.acts program.old) (P.acts program.new) }
    ensures buffer { length buffer.new ≡ ROOM }
{
    let free = buffer.len() - queue.as_slice().len();
    if free == 0 {
        return Gave::NotYet;
    }
    let gave = program.take(&mut buffer[..free]);
    if let Gave::Bytes(count) = gave {
        queue.append(&buffer[..count]);
    }
    gave
}

/// Gives a program that runs what stands in a queue, at least a byte, as far as it takes it. What it took leaves the queue. Ended
/// says that the program takes nothing any more.
pub fn give_from<P: Program, const ROOM: usize>(program: &mut P, queue: &mut Queue<ROOM>) -> Took
    requires some { 0 < length queue.old }
    requires runs { RunsWhereTold (P.acts program.old) }
    ensures { GivesFrom result queue.old queue.new (P.acts program.old) (P.acts program.new) }
{
    let took = program.give(queue.as_slice());
    if let Took::Bytes(count) = took {
        queue.drop_front(count);
    }
    took
}
