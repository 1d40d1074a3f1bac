// Pages of text, as they are written.
ghost use Rattle.std.specs.Prelude.{◌≡◌, ◌<◌, length, string_bytes, Ok, Err, IfOk};
ghost use Rattle.af_io.specs.Observed.{Appended, CountsFault};
ghost use Rattle.af_version.specs.About.{GainsPage};

use af_io::{Put, Sink};
use std::alloc::{AllocError, Global};
use std::fmt::Display;

/// Why a page was not written.
#[derive(Clone, Copy, Debug, PartialEq, Eq)]
pub enum PageFault {
    SinkFault,
    OutOfMemory,
}

/// The text of a page, with a line feed after its last line.
pub fn page_text<T: Display>(alloc: Global, page: &T) -> Result<String, AllocError>
    ensures { IfOk result (λ text. 0 < length (string_bytes text)) }
{
    let mut text = format!(in alloc; "{page}")?;
    text.push_str("\n")?;
    Ok(text)
}

/// Writes a page to a sink, in one piece.
pub fn write_page<T: Display, K: Sink>(
    alloc: Global,
    page: &T,
    sink: &mut K,
) -> Result<(), PageFault>
    ensures written { result ≡ Ok tt → GainsPage (K.held sink.old) (K.held sink.new) }
    ensures fault { CountsFault (result ≡ Err PageFault.SinkFault) (K.faults sink.old) (K.faults sink.new) }
    ensures unwritten { result ≡ Err PageFault.OutOfMemory → sink.new ≡ sink.old }
{
    let Ok(text) = page_text(alloc, page) else {
        return Err(PageFault::OutOfMemory);
    };
    match sink.write(text.as_bytes()) {
        Put::Done => Ok(()),
        Put::Failed => Err(PageFault::SinkFault),
    }
}
