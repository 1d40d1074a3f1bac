// The lines of a configuration that give a telephone line its program, and their faults. What is expected was worked out by hand.
use crate::tests::configuration::{assert_faults, assert_program};
use af_live::read_config;
use af_outside::{CardKind, Kind};
use std::alloc::Global;
use std::process::Abort;
use std::test::Fail;

// The program of a telephone line: its device, how often it may be started again, and its command line.
type Phone<'a> = (u8, u32, &'a [&'a str]);

// A text states these programs of telephone lines, in this order, and no others.
fn assert_phones(
    rt: &impl Abort,
    alloc: Global,
    text: &[u8],
    phones: &[Phone<'_>],
) -> Result<(), Fail> {
    if text.len() > 65536 {
        return Err(Fail::from("the text is too long"));
    }
    let setting = read_config(alloc, text)?;
    assert_eq!(rt; setting.line_programs().len(), phones.len());
    for (program, (device, restarts, texts)) in setting.line_programs().iter().zip(phones) {
        assert_eq!(rt; program.device, *device);
        // a card has the same words
        let kind = Kind::Card {
            card: CardKind::Card,
            restarts: program.restarts,
            words: program.words.words(),
        };
        assert_program(rt, kind, &(true, Some(CardKind::Card), *restarts, *texts))?;
    }
    Ok(())
}

#[test]
fn a_line_has_a_program(rt: HostRuntime) -> Result<(), Fail> {
    let cases: &[(&[u8], &[Phone<'_>])] = &[
        (b"device lin16 8000 0 line silent", &[]),
        (
            b"device lin16 8000 0 line silent\nphone 0 0 ring",
            &[(0, 0, &["ring"])],
        ),
        // in the order of the lines, with lines between them that are skipped
        (
            b"device alaw 8000 0 silent\ndevice lin16 48000 7 stereo line files a b\n# lines\ndevice mu255 8000 0 line silent\n\n  phone  02 1000000   python3 gr\xc3\xbc\xc3\x9fe.py\n#\n \nphone 1 0001000000 a b c d e f g h\n",
            &[
                (2, 1000000, &["python3", "grüße.py"]),
                (1, 1000000, &["a", "b", "c", "d", "e", "f", "g", "h"]),
            ],
        ),
        // the words of a program may be words that a configuration uses
        (
            b"device alaw 8000 0 line codec 1 phone\nphone 0 7 phone 0 device line #",
            &[(0, 7, &["phone", "0", "device", "line", "#"])],
        ),
        // a word of 255 bytes
        (
            b"device alaw 8000 0 line silent\nphone 0 1 123456789012345678901234567890123456789012345678901234567890123456789012345678901234567890123456789012345678901234567890123456789012345678901234567890123456789012345678901234567890123456789012345678901234567890123456789012345678901234567890123456789012345",
            &[(
                0,
                1,
                &[
                    "123456789012345678901234567890123456789012345678901234567890123456789012345678901234567890123456789012345678901234567890123456789012345678901234567890123456789012345678901234567890123456789012345678901234567890123456789012345678901234567890123456789012345",
                ],
            )],
        ),
        // eight lines
        (
            b"device alaw 8000 0 line silent\ndevice alaw 8000 0 line silent\ndevice alaw 8000 0 line silent\ndevice alaw 8000 0 line silent\ndevice alaw 8000 0 line silent\ndevice alaw 8000 0 line silent\ndevice alaw 8000 0 line silent\ndevice alaw 8000 0 line silent\nphone 7 1 a\nphone 6 1 a\nphone 5 1 a\nphone 4 1 a\nphone 3 1 a\nphone 2 1 a\nphone 1 1 a\nphone 0 1 a",
            &[
                (7, 1, &["a"]),
                (6, 1, &["a"]),
                (5, 1, &["a"]),
                (4, 1, &["a"]),
                (3, 1, &["a"]),
                (2, 1, &["a"]),
                (1, 1, &["a"]),
                (0, 1, &["a"]),
            ],
        ),
    ];
    for (text, phones) in cases {
        assert_phones(&rt, rt.alloc(), text, phones)?;
    }
    Ok(())
}

#[test]
fn a_faulty_phone_line_is_numbered(rt: HostRuntime) -> Result<(), Fail> {
    assert_faults(
        &rt,
        rt.alloc(),
        &[
            // before any device
            (b"phone 0 1 ring", 1),
            (
                b"# a\n\nphone 0 1 ring\ndevice alaw 8000 0 line silent\n",
                3,
            ),
            // of a device that does not exist
            (b"device alaw 8000 0 line silent\nphone 1 1 ring", 2),
            (b"device alaw 8000 0 line silent\nphone 8 1 ring", 2),
            (b"device alaw 8000 0 line silent\nphone 256 1 ring", 2),
            (
                b"device alaw 8000 0 line silent\nphone 4294967296 1 ring",
                2,
            ),
            // of a device without a line
            (b"device alaw 8000 0 silent\nphone 0 1 ring", 2),
            (
                b"device alaw 8000 0 line silent\ndevice alaw 8000 0 silent\nphone 0 1 ring\n\nphone 1 1 ring\n",
                5,
            ),
            // a second one of a device
            (
                b"device alaw 8000 0 line silent\nphone 0 1 ring\nphone 0 2 rang",
                3,
            ),
            (
                b"device alaw 8000 0 line silent\ndevice alaw 8000 0 line silent\nphone 0 1 ring\nphone 1 1 ring\nphone 00 1 ring",
                5,
            ),
            // a device, or another word, after one
            (
                b"device alaw 8000 0 line silent\nphone 0 1 ring\ndevice alaw 8000 0 line silent",
                3,
            ),
            (
                b"device alaw 8000 0 line silent\nphone 0 1 ring\nPhone 0 1 ring",
                3,
            ),
            // a faulty device before one
            (b"device alaw 8000 0 line\nphone 0 1 ring", 1),
            // with no device, no restarts, no words, too many restarts, a ninth word, a word of 256 bytes, and not in UTF-8
            (b"device alaw 8000 0 line silent\nphone", 2),
            (b"device alaw 8000 0 line silent\nphone ring 1 0", 2),
            (b"device alaw 8000 0 line silent\nphone 0", 2),
            (b"device alaw 8000 0 line silent\nphone 0 ring", 2),
            (b"device alaw 8000 0 line silent\nphone 0 1", 2),
            (b"device alaw 8000 0 line silent\nphone 0 1000001 ring", 2),
            (
                b"device alaw 8000 0 line silent\nphone 0 1 1 2 3 4 5 6 7 8 9",
                2,
            ),
            (
                b"device alaw 8000 0 line silent\nphone 0 1 1234567890123456789012345678901234567890123456789012345678901234567890123456789012345678901234567890123456789012345678901234567890123456789012345678901234567890123456789012345678901234567890123456789012345678901234567890123456789012345678901234567890123456",
                2,
            ),
            (b"device alaw 8000 0 line silent\nphone 0 1 \xff", 2),
            (b"device alaw 8000 0 line silent\nphone 0 1 ring\n# \xff", 3),
        ],
    )
}
