// Headers of sound files whose bytes are written out by hand: whole, cut, and with one bad byte.
use crate::tests::asserts::assert_bytes;
use af_sound::*;
use std::process::Abort;

const AU: &[u8] = b".snd\0\0\0\x1a\xff\xff\xff\xff\0\0\0\x01\0\0\x1f\x40\0\0\0\x01hi";

// with a chunk of three bytes and its pad byte before `fmt `
const WAVE: &[u8] =
    b"RIFF\0\0\0\0WAVELIST\x03\0\0\0abc\0fmt \x10\0\0\0\x01\0\x02\0\x44\xac\0\0\x10\xb1\x02\0\x04\0\x10\0data\x06\0\0\0";

const AU_HEAD: SoundHead = SoundHead {
    coding: Coding::Mu255,
    rate: 8000,
    channels: 1,
    length: None,
};

const WAVE_HEAD: SoundHead = SoundHead {
    coding: Coding::Lin16Little,
    rate: 44100,
    channels: 2,
    length: Some(6),
};

#[test]
fn heads_are_read_byte_by_byte(rt: HostRuntime) {
    assert_whole(&rt, SoundForm::Au, AU, AU_HEAD);
    assert_whole(&rt, SoundForm::Wave, WAVE, WAVE_HEAD);
}

// A header is reported at its last byte. Before that the reader wants more.
fn assert_whole(rt: &impl Abort, form: SoundForm, bytes: &[u8], head: SoundHead) {
    for cut in 0..bytes.len() {
        assert_read(rt, form, &bytes[..cut], None, (cut, HeadStep::More));
    }
    assert_read(rt, form, bytes, None, (bytes.len(), HeadStep::Head(head)));
}

fn assert_read(
    rt: &impl Abort,
    form: SoundForm,
    bytes: &[u8],
    changed: Option<(usize, u8)>,
    wanted: (usize, HeadStep),
) {
    assert_eq!(rt;
        read_head(form, bytes, changed),
        wanted,
        "{bytes:?} {changed:?}"
    );
}

// How many bytes were taken, if one of them may be changed, and the answer to the last of them.
fn read_head(form: SoundForm, bytes: &[u8], changed: Option<(usize, u8)>) -> (usize, HeadStep) {
    let mut reader = HeadReader::new(form);
    for (i, byte) in bytes.iter().enumerate() {
        let taken = match changed {
            Some((place, other)) if place == i => other,
            _ => *byte,
        };
        match reader.take(taken) {
            HeadStep::More => {}
            step => return (i + 1, step),
        }
    }
    (bytes.len(), HeadStep::More)
}

const fn coding(tag: u32, bits: u32) -> SoundFault {
    SoundFault::BadCoding { tag, bits }
}

const fn shape(rate: u32, channels: u32) -> SoundFault {
    SoundFault::BadShape { rate, channels }
}

#[test]
fn one_bad_byte_is_told_where_it_shows(rt: HostRuntime) {
    assert_changed(
        &rt,
        SoundForm::Au,
        AU,
        &[
            (0, b'R', 4, SoundFault::BadMagic),
            (7, 23, 24, SoundFault::BadHead),
            (15, 2, 24, coding(2, 0)),
            (23, 3, 24, shape(8000, 3)),
        ],
    );
    assert_changed(
        &rt,
        SoundForm::Wave,
        WAVE,
        &[
            (0, b'r', 12, SoundFault::BadMagic),
            (11, b'e', 12, SoundFault::BadMagic),
            (28, 15, 32, SoundFault::BadHead),
            (32, 3, 48, coding(3, 16)),
            (34, 0, 48, shape(44100, 0)),
            (46, 24, 48, coding(1, 24)),
        ],
    );
}

fn assert_changed(
    rt: &impl Abort,
    form: SoundForm,
    head: &[u8],
    cases: &[(usize, u8, usize, SoundFault)],
) {
    for (place, byte, taken, fault) in cases {
        assert_read(
            rt,
            form,
            head,
            Some((*place, *byte)),
            (*taken, HeadStep::Bad(*fault)),
        );
    }
}

#[test]
fn chunks_in_another_order(rt: HostRuntime) {
    let bad = HeadStep::Bad(SoundFault::BadHead);
    assert_read(
        &rt,
        SoundForm::Wave,
        b"RIFF\0\0\0\0WAVEdata",
        None,
        (16, bad),
    );
    let twice = b"RIFF\0\0\0\0WAVEfmt \x11\0\0\0\x07\0\x01\0\x40\x1f\0\0\0\0\0\0\0\0\x08\0\0\0fmt ";
    assert_read(&rt, SoundForm::Wave, twice, None, (42, bad));
}

#[test]
fn heads_are_written(rt: HostRuntime) {
    let mut out = [0; 44];
    let head = SoundHead {
        coding: Coding::Mu255,
        rate: 8000,
        channels: 1,
        length: None,
    };
    let count = write_sound_head(SoundForm::Au, &head, &mut out);
    assert_bytes(
        &rt,
        ".au",
        &out[..count],
        b".snd\0\0\0\x18\xff\xff\xff\xff\0\0\0\x01\0\0\x1f\x40\0\0\0\x01",
    );
    let head = SoundHead {
        coding: Coding::Lin16Little,
        rate: 8000,
        channels: 1,
        length: Some(4),
    };
    let count = write_sound_head(SoundForm::Wave, &head, &mut out);
    assert_bytes(
        &rt,
        "WAVE",
        &out[..count],
        b"RIFF\x28\0\0\0WAVEfmt \x10\0\0\0\x01\0\x01\0\x40\x1f\0\0\x80\x3e\0\0\x02\0\x10\0data\x04\0\0\0",
    );
}

#[test]
fn sound_of_files(rt: HostRuntime) {
    let mut same = [0; 4];
    to_server(Coding::Lin16Little, &[1, 2, 3, 4], &mut same);
    assert_bytes(&rt, "pairs", &same, &[2, 1, 4, 3]);
    let mut wide = [0; 6];
    to_server(Coding::U8, &[0, 128, 255], &mut wide);
    assert_bytes(&rt, "8 bits", &wide, &[0x80, 0, 0, 0, 0x7f, 0]);
}
