// What a client and a server sent each other on a link, as far as a person wants to know it afterwards.
use crate::asked::Asked;
use crate::due::Due;
use crate::incoming::Incoming;
use crate::lost::{Lost, millis_lasting};
use crate::passage::Passage;
use af_io::Reason;
use af_limits::LONGEST_ADDRESS;
use af_request::{DeviceInfo, Devices, Reply, Request, read_reply, read_request};
use af_sample::SampleType;
use af_shown::Shown;
use af_time::DevTime;
use af_toolkit::time_before;
use af_wire::{Order, SetupFront, setup_of};
use arrayvec::ArrayString;

/// The address of a server.
pub type Address = ArrayString<LONGEST_ADDRESS>;

/// The context that was asked for last: its device, and the bytes of its frames.
#[derive(Clone, Copy)]
pub struct Context {
    pub device: u8,
    pub frame: usize,
}

/// What was said on a link so far. It follows links of both orders.
#[derive(Drop)]
pub struct Talk {
    pub address: Address,
    /// Why the link failed, if it did.
    pub reason: Option<Reason>,
    /// Whether the setup was not answered in time.
    pub silent: bool,
    /// Whether the server sent anything at all.
    pub heard: bool,
    /// The devices of the server, once it has told them.
    pub devices: Devices,
    /// What the server was asked last.
    pub asked: Option<Asked>,
    /// Whether it has not answered that.
    pub waits: bool,
    /// Frames that were played too late to be heard.
    pub late: Lost,
    /// Frames that had left the server before they were asked for.
    pub gone: Lost,
    /// The blocks that were played.
    pub passage: Passage,
    // None before the setup is sent.
    order: Option<Order>,
    context: Option<Context>,
    // The device's time, as it was told last.
    now: Option<DevTime>,
    incoming: Incoming,
}

impl Talk {
    /// Nothing was said to the server of this address.
    pub fn new(address: Address) -> Talk {
        Talk {
            address,
            reason: None,
            silent: false,
            heard: false,
            devices: Devices::new(),
            asked: None,
            waits: false,
            late: Lost::new(),
            gone: Lost::new(),
            passage: Passage::new(),
            order: None,
            context: None,
            now: None,
            incoming: Incoming::new(),
        }
    }

    /// The address of the server, as it is shown.
    pub fn shown_address(&self) -> Shown<'_> {
        Shown::new(self.address.as_str().as_bytes())
    }

    /// The client sends a setup, or a whole request.
    pub fn sent(&mut self, piece: &[u8]) {
        self.waits = true;
        let Some(order) = self.order else {
            if let SetupFront::Setup(order) = setup_of(piece) {
                self.order = Some(order);
                self.asked = Some(Asked::Setup);
            }
            return;
        };
        if let Some(request) = read_request(order, piece) {
            self.note_request(&request);
        }
    }

    /// The server has sent bytes, parts of messages or many of them.
    pub fn came(&mut self, bytes: &[u8]) {
        self.heard = true;
        let Some(order) = self.order else {
            return;
        };
        for byte in bytes {
            if self.incoming.take(order, *byte) {
                self.note_message(order);
                self.incoming.begin();
            }
        }
    }

    fn note_request(&mut self, request: &Request<'_>) {
        if let Request::CreateAc {
            device,
            ty,
            channels,
            ..
        } = request
        {
            self.context = context_of(*device, *ty, *channels);
        }
        let frame = match self.context {
            Some(context) => context.frame,
            None => 0,
        };
        let asked = Asked::by(request, frame);
        if let Asked::Play { frames, time } = asked {
            self.passage.note_sent(time, frames);
        }
        self.asked = Some(asked);
    }

    // Notes what a complete message says. If its body is long, only its first bytes are kept.
    fn note_message(&mut self, order: Order) {
        let [1, detail, _, _, _, _, _, _, body @ ..] = self.incoming.bytes() else {
            return;
        };
        self.waits = false;
        if *detail == 0 {
            if let Some(Reply::Setup { devices }) = read_reply(order, 0, body) {
                self.devices = devices;
            }
            return;
        }
        if let [a, b, c, d, ..] = body {
            let now = DevTime(order.u32([*a, *b, *c, *d]));
            self.note_time(now);
        }
    }

    // The reply to the last request has this time.
    fn note_time(&mut self, now: DevTime) {
        self.now = Some(now);
        match self.asked {
            Some(Asked::Play { frames, time }) => {
                self.passage.note_taken();
                self.late.note(time, frames, now);
            }
            Some(Asked::Record { frames, time }) => {
                let oldest = time_before(now, u64::from(self.horizon()));
                self.gone.note(time, frames, oldest);
            }
            Some(Asked::Time { device: _ }) => self.passage.note_time(now),
            _ => {}
        }
    }

    /// With how many milliseconds in place of these all that was played on this device would have come in time. None if that is
    /// more than the longest, or if the device is not known.
    pub fn enough_millis(&self, device: u8, millis: u32, longest: u64) -> Option<u64> {
        let info = self.devices.get(usize::from(device))?;
        let enough = u64::from(millis) + millis_lasting(self.late.latest, info.rate);
        if enough <= longest {
            Some(enough)
        } else {
            None
        }
    }

    /// Whether the blocks that were played and taken fill one more minute since this was asked last.
    pub fn completes_minute(&mut self) -> bool {
        match self.device() {
            Some(info) => {
                let rate = info.rate;
                self.passage.completes_minute(rate)
            }
            None => false,
        }
    }

    /// What the server answers only later, if it was asked for that. A play is answered once its last frame is no more than the
    /// device's horizon ahead, and a record once the device has its last frame.
    pub fn due(&self) -> Option<Due> {
        let now = self.now?;
        let info = self.device()?;
        match self.asked {
            Some(Asked::Play { frames, time }) => {
                let end = time.after(frames);
                Due::at(time_before(end, u64::from(info.horizon)), now, info.rate)
            }
            Some(Asked::Record { frames, time }) => Due::at(time.after(frames), now, info.rate),
            _ => None,
        }
    }

    // The device of the context.
    fn device(&self) -> Option<&DeviceInfo> {
        let context = self.context?;
        self.devices.get(usize::from(context.device))
    }

    // How many frames of the past the context's device keeps.
    fn horizon(&self) -> u32 {
        match self.device() {
            Some(info) => info.horizon,
            None => 0,
        }
    }
}

fn context_of(device: u8, ty: u8, channels: u8) -> Option<Context> {
    let ty = SampleType::of_code(ty)?;
    Some(Context {
        device,
        frame: ty.frame_bytes(channels),
    })
}
