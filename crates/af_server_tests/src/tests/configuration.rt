// Configurations are read and their faults numbered, and devices are paced. What is expected was worked out by hand.
use af_live::{ConfigFault, Pace, read_config};
use af_outside::{CardKind, DeviceSpec, Kind};
use af_sample::SampleType;
use std::alloc::Global;
use std::process::Abort;
use std::test::Fail;

// The line of a text's fault, or 0 for a configuration without one.
fn faulty_line(alloc: Global, text: &[u8]) -> Result<u32, Fail> {
    if text.len() > 65536 {
        return Err(Fail::from("the text is too long"));
    }
    match read_config(alloc, text) {
        Ok(_) => Ok(0),
        Err(ConfigFault::Line(line)) => Ok(line),
        Err(ConfigFault::OutOfMemory) => Err(Fail::from("out of memory")),
    }
}

// Each text has its first fault in this line.
pub fn assert_faults(rt: &impl Abort, alloc: Global, cases: &[(&[u8], u32)]) -> Result<(), Fail> {
    for (text, line) in cases {
        let found = faulty_line(alloc, text)?;
        assert_eq!(rt; found, *line, "{text:?}");
    }
    Ok(())
}

// The names of the files of a device, or a word for each of them if it hears itself.
fn names(kind: Kind<'_>) -> Option<(&str, &str)> {
    match kind {
        Kind::Silent => None,
        Kind::Files { input, output } => Some((input, output)),
        Kind::Loop => Some(("its", "own")),
        Kind::Codec { .. } => None,
        Kind::Card { .. } => None,
    }
}

// A text states these devices, over these files or none.
fn assert_states(
    rt: &impl Abort,
    alloc: Global,
    text: &[u8],
    devices: &[(DeviceSpec, Option<(&str, &str)>)],
) -> Result<(), Fail> {
    if text.len() > 65536 {
        return Err(Fail::from("the text is too long"));
    }
    let setting = read_config(alloc, text)?;
    assert_eq!(rt; setting.config().len(), devices.len());
    for number in 0..8u8 {
        let place = number as usize;
        if place < setting.config().len() && place < devices.len() {
            assert_eq!(rt; setting.config()[place], devices[place].0);
            assert_eq!(rt; names(setting.kind(number)), devices[place].1);
        }
    }
    Ok(())
}

// At these readings of the clock so many frames of each rate are due.
fn assert_due(rt: &impl Abort, cases: &[(u32, &[(u64, u32)])]) {
    for (rate, readings) in cases {
        let mut pace = Pace::new(*rate);
        for (nanos, frames) in *readings {
            assert_eq!(rt; pace.due(*nanos), *frames, "{rate} at {nanos}");
        }
    }
}

#[test]
fn configurations_are_read(rt: HostRuntime) -> Result<(), Fail> {
    let text = "# five devices\n\n device  mu255 08000 4294967295   silent\n\
                device lin32 44100 7 line files grüße.raw /dev/null\n\
                device lin16 48000 0  stereo files stereo line\n\
                device alaw 8000 1 stereo line silent\n\
                device alaw 8000 1 stereo line loop";
    let first = DeviceSpec {
        ty: SampleType::Mu255,
        rate: 8000,
        start: 4294967295,
        channels: 1,
        line: false,
    };
    let second = DeviceSpec {
        ty: SampleType::Lin32,
        rate: 44100,
        start: 7,
        channels: 1,
        line: true,
    };
    let third = DeviceSpec {
        ty: SampleType::Lin16,
        rate: 48000,
        start: 0,
        channels: 2,
        line: false,
    };
    let fourth = DeviceSpec {
        ty: SampleType::Alaw,
        rate: 8000,
        start: 1,
        channels: 2,
        line: true,
    };
    let devices = [
        (first, None),
        (second, Some(("grüße.raw", "/dev/null"))),
        (third, Some(("stereo", "line"))),
        (fourth, None),
        (fourth, Some(("its", "own"))),
    ];
    assert_states(&rt, rt.alloc(), text.as_bytes(), &devices)
}

// A device with a program: whether it has a line, its kind of card, or None for a codec, how often the program may be started
// again, and its command line.
type Program<'a> = (bool, Option<CardKind>, u32, &'a [&'a str]);

// A device has this program.
pub fn assert_program(rt: &impl Abort, kind: Kind<'_>, program: &Program<'_>) -> Result<(), Fail> {
    let (_, wanted, most, texts) = program;
    let (card, restarts, words) = match kind {
        Kind::Codec { restarts, words } => (None, restarts, words),
        Kind::Card {
            card,
            restarts,
            words,
        } => (Some(card), restarts, words),
        Kind::Silent => return Err(Fail::from("the device is silent")),
        Kind::Files { .. } => return Err(Fail::from("the device has files")),
        Kind::Loop => return Err(Fail::from("the device hears itself")),
    };
    assert_eq!(rt; card, *wanted);
    assert_eq!(rt; restarts, *most);
    assert_eq!(rt; words.len(), texts.len());
    for (word, text) in words.iter().zip(*texts) {
        assert!(rt; word.as_str() == *text, "{text}");
    }
    Ok(())
}

// A text states devices with these programs, one for each, and no others.
fn assert_programs(
    rt: &impl Abort,
    alloc: Global,
    text: &[u8],
    programs: &[Program<'_>],
) -> Result<(), Fail> {
    if text.len() > 65536 {
        return Err(Fail::from("the text is too long"));
    }
    let setting = read_config(alloc, text)?;
    assert_eq!(rt; setting.config().len(), programs.len());
    for number in 0..8u8 {
        let place = number as usize;
        if place < setting.config().len() && place < programs.len() {
            assert_eq!(rt; setting.config()[place].line, programs[place].0);
            assert_program(rt, setting.kind(number), &programs[place])?;
        }
    }
    Ok(())
}

#[test]
fn a_program_has_restarts_and_words(rt: HostRuntime) -> Result<(), Fail> {
    let cases: &[(&[u8], &[Program<'_>])] = &[
        (
            b"device mu255 8000 0 codec 100  aplay -t raw -f MU_LAW -r 8000 -",
            &[(
                false,
                None,
                100,
                &["aplay", "-t", "raw", "-f", "MU_LAW", "-r", "8000", "-"],
            )],
        ),
        (
            b"device mu255 8000 0 stereo line codec 000 1234567890123456789012345678901234567890123456789012345678901234",
            &[(
                true,
                None,
                0,
                &["1234567890123456789012345678901234567890123456789012345678901234"],
            )],
        ),
        (
            b"device mu255 8000 0 speaker 10  aplay -q -t raw -f MU_LAW -r 8000",
            &[(
                false,
                Some(CardKind::Speaker),
                10,
                &["aplay", "-q", "-t", "raw", "-f", "MU_LAW", "-r", "8000"],
            )],
        ),
        (
            b"device alaw 8000 0 line microphone 0 123456789012345678901234567890123456789012345678901234567890123456789012345678901234567890123456789012345678901234567890123456789012345678901234567890123456789012345678901234567890123456789012345678901234567890123456789012345678901234567890123456789012345",
            &[(
                true,
                Some(CardKind::Microphone),
                0,
                &[
                    "123456789012345678901234567890123456789012345678901234567890123456789012345678901234567890123456789012345678901234567890123456789012345678901234567890123456789012345678901234567890123456789012345678901234567890123456789012345678901234567890123456789012345",
                ],
            )],
        ),
        (
            b"device lin16 48000 0 stereo line card 1000000 python3 gr\xc3\xbc\xc3\x9fe.py",
            &[(
                true,
                Some(CardKind::Card),
                1000000,
                &["python3", "grüße.py"],
            )],
        ),
        (
            b"device lin16 44100 0 stereo encoder 1000000 ffmpeg -f s16be -i pipe:0 out.ogg",
            &[(
                false,
                Some(CardKind::Encoder),
                1000000,
                &["ffmpeg", "-f", "s16be", "-i", "pipe:0", "out.ogg"],
            )],
        ),
        // the words of a program may be words that a configuration uses
        (
            b"device lin32 44100 0 stereo speaker 0001000000 line speaker card codec stereo silent",
            &[(
                false,
                Some(CardKind::Speaker),
                1000000,
                &["line", "speaker", "card", "codec", "stereo", "silent"],
            )],
        ),
        // several cards and encoders beside a codec
        (
            b"device mu255 8000 0 card 101 a\n device lin16 8000 0 codec 1 b\ndevice alaw 8000 0 card 0 a\n\ndevice mu255 8000 0 line microphone 999999 c\ndevice mu255 8000 0 speaker 5 d\ndevice mu255 8000 0 encoder 0 e\ndevice alaw 8000 0 line encoder 8 f\n",
            &[
                (false, Some(CardKind::Card), 101, &["a"]),
                (false, None, 1, &["b"]),
                (false, Some(CardKind::Card), 0, &["a"]),
                (true, Some(CardKind::Microphone), 999999, &["c"]),
                (false, Some(CardKind::Speaker), 5, &["d"]),
                (false, Some(CardKind::Encoder), 0, &["e"]),
                (true, Some(CardKind::Encoder), 8, &["f"]),
            ],
        ),
        // eight cards
        (
            b"device alaw 8000 0 card 7 a\ndevice alaw 8000 0 card 7 a\ndevice alaw 8000 0 card 7 a\ndevice alaw 8000 0 card 7 a\ndevice alaw 8000 0 card 7 a\ndevice alaw 8000 0 card 7 a\ndevice alaw 8000 0 card 7 a\ndevice alaw 8000 0 card 7 a",
            &[
                (false, Some(CardKind::Card), 7, &["a"]),
                (false, Some(CardKind::Card), 7, &["a"]),
                (false, Some(CardKind::Card), 7, &["a"]),
                (false, Some(CardKind::Card), 7, &["a"]),
                (false, Some(CardKind::Card), 7, &["a"]),
                (false, Some(CardKind::Card), 7, &["a"]),
                (false, Some(CardKind::Card), 7, &["a"]),
                (false, Some(CardKind::Card), 7, &["a"]),
            ],
        ),
    ];
    for (text, programs) in cases {
        assert_programs(&rt, rt.alloc(), text, programs)?;
    }
    Ok(())
}

#[test]
fn the_first_faulty_line_is_numbered(rt: HostRuntime) -> Result<(), Fail> {
    assert_faults(
        &rt,
        rt.alloc(),
        &[
            (b"", 1),
            (b"# nothing\n\n", 3),
            (b"device lin16 8001 0 silent", 1),
            (b"device lin16 8000 0 files a b c", 1),
            (b"device lin16 8000 0 loop a", 1),
            (b"device lin16 8000 0 Loop", 1),
            (b"device lin16 8000 0 line line silent\n", 1),
            // two channels that are stated twice, after the line, after the backend, before the start, or alone
            (b"device lin16 8000 0 stereo stereo silent\n", 1),
            (b"device lin16 8000 0 line stereo silent\n", 1),
            (b"device lin16 8000 0 silent stereo\n", 1),
            (b"device lin16 8000 stereo 0 silent\n", 1),
            (b"device lin16 8000 0 Stereo silent\n", 1),
            (b"device lin16 8000 0 stereo\n", 1),
            (b"device lin16 8000 0 silent\r\n", 1),
            (b"device lin16 8000 0 silent\ndevice lin16 8000 0", 2),
            (b"device lin16 8000 0 silent\nopen 0\n", 2),
            (b"device lin16 8000 0 silent\n# \xff\n", 2),
            // a codec with no words, with a ninth, with too many restarts, with a word of 65 bytes; and a second codec
            (b"device lin16 8000 0 codec 0", 1),
            (b"device lin16 8000 0 codec 0 1 2 3 4 5 6 7 8 9", 1),
            (b"device lin16 8000 0 codec 101 cat", 1),
            (
                b"device lin16 8000 0 codec 0 12345678901234567890123456789012345678901234567890123456789012345",
                1,
            ),
            (
                b"device lin16 8000 0 codec 1 cat\ndevice lin16 8000 0 silent\ndevice lin16 8000 0 line codec 1 cat",
                3,
            ),
            // a card with no restarts, no words, a ninth word, too many restarts, a word of 256 bytes, its line in the wrong
            // place, or another name; and a second codec after cards
            (b"device lin16 8000 0 card", 1),
            (b"device lin16 8000 0 card cat", 1),
            (b"device lin16 8000 0 speaker 1", 1),
            (b"device lin16 8000 0 microphone 0 1 2 3 4 5 6 7 8 9", 1),
            (b"device lin16 8000 0 speaker 1000001 cat", 1),
            (b"device lin16 8000 0 microphone 1000001 cat", 1),
            (b"device lin16 8000 0 card 1000001 cat", 1),
            (b"device lin16 8000 0 card 00000000001 cat", 1),
            (
                b"device lin16 8000 0 card 0 1234567890123456789012345678901234567890123456789012345678901234567890123456789012345678901234567890123456789012345678901234567890123456789012345678901234567890123456789012345678901234567890123456789012345678901234567890123456789012345678901234567890123456",
                1,
            ),
            (b"device lin16 8000 0 card line 1 cat", 1),
            (b"device lin16 8000 0 Card 1 cat", 1),
            (b"device lin16 8000 0 speakers 1 cat", 1),
            (b"device lin16 8000 0 mic 1 cat", 1),
            // an encoder with no restarts, no words, a ninth word, too many restarts, or another name
            (b"device lin16 8000 0 encoder", 1),
            (b"device lin16 8000 0 encoder cat", 1),
            (b"device lin16 8000 0 encoder 1", 1),
            (b"device lin16 8000 0 encoder 0 1 2 3 4 5 6 7 8 9", 1),
            (b"device lin16 8000 0 encoder 1000001 cat", 1),
            (b"device lin16 8000 0 encoders 1 cat", 1),
            (b"device lin16 8000 0 encode 1 cat", 1),
            (
                b"device lin16 8000 0 card 1 cat\ndevice lin16 8000 0 codec 1 cat\ndevice lin16 8000 0 card 1 cat\ndevice lin16 8000 0 codec 1 cat",
                4,
            ),
            // a ninth device
            (
                b"device alaw 8000 0 silent\ndevice alaw 8000 0 silent\ndevice alaw 8000 0 silent\ndevice alaw 8000 0 silent\ndevice alaw 8000 0 silent\ndevice alaw 8000 0 silent\ndevice alaw 8000 0 silent\ndevice alaw 8000 0 silent\n\ndevice alaw 8000 0 silent",
                10,
            ),
        ],
    )
}

#[test]
fn frames_are_due_by_the_clock(rt: HostRuntime) {
    assert_due(
        &rt,
        &[
            // a second has 8000 frames, and 4096 of them are due at once
            (
                8000,
                &[
                    (5, 0),
                    (1000000005, 4096),
                    (1000000005, 3904),
                    (2000000005, 4096),
                ],
            ),
            // a clock that goes back makes no frame due twice
            (48000, &[(u64::MAX, 0), (0, 0)]),
            (
                u32::MAX,
                &[(0, 0), (1000, 4096), (u64::MAX, 4096), (1000, 0)],
            ),
        ],
    );
}
