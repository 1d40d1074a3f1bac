// What a job means on its device: intervals in frames.
ghost use Rattle.std.specs.Prelude.{◌≡◌, ◌≤◌, ◌*◌, max, IfSome};
ghost use Rattle.af_request.specs.Replies.{IsDeviceInfo};
ghost use Rattle.af_meter.specs.Plans.{frames_in, plan_of, span_at, IsMeterJob, IsPlan};

use crate::job::{MeterJob, Quiet};
use af_request::DeviceInfo;

/// What counts as quiet on a device: the peaks of all channels are below a limit for so many frames.
#[derive(Clone, Copy)]
pub struct QuietSpan {
    pub below: u32,
    pub frames: u32,
}

/// What is measured on a device.
#[derive(Clone, Copy)]
pub struct Plan {
    pub channels: u8,
    /// The frames of an interval.
    pub frames: u32,
    /// What counts as quiet, if only changes are written.
    pub quiet: Option<QuietSpan>,
}

// How many frames so many milliseconds are at a rate: at least one.
#[tactic(auto, using(crate::proofs::PlanLemmas::product_few))]
fn frames_in(rate: u32, milliseconds: u32) -> u32
    requires rate { rate ≤ 48000 }
    requires milliseconds { milliseconds ≤ 3600000 }
    ensures value { result ≡ frames_in rate milliseconds }
    ensures few { result ≤ max (48 * milliseconds) 1 }
{
    let frames = u64::from(rate) * u64::from(milliseconds) / 1000;
    frames.max(1) as u32
}

// What counts as quiet at a rate, if only changes are written.
fn span_at(rate: u32, quiet: Option<Quiet>) -> Option<QuietSpan>
    requires rate { rate ≤ 48000 }
    requires milliseconds { IfSome quiet (λ q. q.milliseconds ≤ 3600000) }
    ensures value { result ≡ span_at rate quiet }
    ensures stands { IfSome result (λ span. (1 ≤ span.frames) × (span.frames ≤ 172800000)) }
{
    match quiet {
        Some(quiet) => {
            let frames = frames_in(rate, quiet.milliseconds);
            Some(QuietSpan {
                below: quiet.below,
                frames,
            })
        }
        None => None,
    }
}

/// What a job measures on its device.
pub fn plan_of(job: &MeterJob, device: DeviceInfo) -> Plan
    requires job { IsMeterJob job.now }
    requires shape { IsDeviceInfo device }
    ensures value { result ≡ plan_of job.now device }
    ensures stands { IsPlan result }
{
    let frames = frames_in(device.rate, job.every);
    let quiet = span_at(device.rate, job.quiet);
    Plan {
        channels: device.channels,
        frames,
        quiet,
    }
}
