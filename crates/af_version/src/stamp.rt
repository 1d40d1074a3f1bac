// The stamp of a program: the text that says that it was proved, of which commit and by which kit, with the SHA-256 of its file.
ghost use Rattle.std.specs.Prelude.{◌≡◌, IsTrue, Ok, Err};
ghost use Rattle.af_io.specs.Observed.{CountsFault};
ghost use Rattle.af_version.specs.About.{GainsPage};
ghost use Rattle.hex.specs.Hex.{decode_of};
ghost use Rattle.sha2.specs.Sha256.{sha256};

use crate::VERSION;
use crate::page::{PageFault, write_page};
use af_io::Sink;
use hex::FromHex;
use sha2::{Digest, Sha256};
use std::fmt::{Formatter, Write};
use std::{env, fmt, fs};

/// What is known of the proof of the program that runs.
#[derive(Drop)]
enum Proof {
    /// Its stamp is of this very file. That is the text of the stamp.
    Stamped(String),
    /// Its stamp is of another file.
    OfAnother,
    Unstamped,
}

// The version, and what is known of the proof of the program that runs.
#[derive(Drop)]
struct VersionPage {
    proof: Proof,
}

impl fmt::Display for VersionPage {
    fn fmt<W: Write>(&self, f: &mut Formatter<W>) -> fmt::Result {
        writeln!(f, "AudioFile {VERSION}")?;
        match &self.proof {
            Proof::Stamped(stamp) => {
                let commit = fact(stamp.as_str(), "# commit ");
                let kit = fact(stamp.as_str(), "# kit ");
                let date = fact(stamp.as_str(), "# date ");
                write!(f, "proved, of commit {commit}, by kit {kit}, on {date}")
            }
            Proof::OfAnother => {
                f.write_str("nothing says that it was proved: its stamp is of another file")
            }
            Proof::Unstamped => { f.write_str("nothing says that it was proved: it has no stamp") }
        }
    }
}

// What a stamp says after this beginning of a line.
fn fact<'a>(stamp: &'a str, begins: &str) -> &'a str {
    for line in stamp.lines() {
        if let Some(said) = line.strip_prefix(begins) {
            return said;
        }
    }
    "unknown"
}

/// Writes the version to a sink, and what is known of the proof of the program that runs, in one piece.
pub fn write_version<K: Sink>(rt: &HostRuntime, sink: &mut K) -> Result<(), PageFault>
    ensures written { result ≡ Ok tt → GainsPage (K.held sink.old) (K.held sink.new) }
    ensures fault { CountsFault (result ≡ Err PageFault.SinkFault) (K.faults sink.old) (K.faults sink.new) }
    ensures unwritten { result ≡ Err PageFault.OutOfMemory → sink.new ≡ sink.old }
{
    let page = VersionPage {
        proof: own_proof(rt),
    };
    write_page(rt.alloc(), &page, sink)
}

// What is known of the proof of the program that runs. Its stamp lies beside it, or in ../share/audiofile.
fn own_proof(rt: &HostRuntime) -> Proof {
    let Some(stamp) = own_stamp(rt) else {
        return Proof::Unstamped;
    };
    match fs::read(rt, "/proc/self/exe") {
        Ok(file) if is_stamp_of(stamp.as_str(), file.as_slice()) => Proof::Stamped(stamp),
        _ => Proof::OfAnother,
    }
}

fn own_stamp(rt: &HostRuntime) -> Option<String> {
    let path = env::current_exe(rt).ok()?;
    let path = path.as_path().to_str()?;
    let beside = format!(in rt.alloc(); "{path}.stamp").ok()?;
    if let Ok(stamp) = fs::read_to_string(rt, beside.as_str()) {
        return Some(stamp);
    }
    let (folder, name) = path.rsplit_once("/")?;
    let shared = format!(in rt.alloc(); "{folder}/../share/audiofile/{name}.stamp").ok()?;
    fs::read_to_string(rt, shared.as_str()).ok()
}

// Whether a stamp states the SHA-256 of a file. A line of it that is no comment does, as sha256sum writes it.
fn is_stamp_of(stamp: &str, file: &[u8]) -> bool {
    for line in stamp.lines() {
        if !line.starts_with("#")
            && let Some((sum, _)) = line.split_once(" ")
        {
            return is_sum_of(sum, file);
        }
    }
    false
}

// Whether these hexadecimal digits are the SHA-256 of a file.
fn is_sum_of(sum: &str, file: &[u8]) -> bool
    ensures { IsTrue result → decode_of sum.now ≡ Ok (sha256 file.now) }
{
    match <[u8; 32] as FromHex>::from_hex(sum) {
        Ok(stated) => stated == Sha256::digest(file),
        Err(_) => false,
    }
}
