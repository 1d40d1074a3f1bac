//! The constants are the limits that contracts name. Each law is the contract of a function that does nothing.
ghost use Rattle.std.specs.Prelude.{◌≡◌};
ghost use Rattle.af_limits.specs.Limits.{most_links, most_devices, most_contexts, longest_tick, most_tick_samples, longest_capture, most_words, longest_frame, longest_play, longest_record, longest_message, longest_read, longest_send, most_unread, perform_limit, event_limit, output_room, longest_script, longest_config, longest_address, longest_source, most_events, most_kept_events};

use crate::*;

/// How many there are: links, devices, contexts.
pub fn counts_agree()
    ensures links { MOST_LINKS ≡ most_links }
    ensures devices { MOST_DEVICES ≡ most_devices }
    ensures contexts { MOST_CONTEXTS ≡ most_contexts }
{}

/// How much sound there is at once, how long a request is, and its reply.
pub fn sounds_agree()
    ensures tick { LONGEST_TICK ≡ longest_tick }
    ensures tick_samples { MOST_TICK_SAMPLES ≡ most_tick_samples }
    ensures capture { LONGEST_CAPTURE ≡ longest_capture }
    ensures words { MOST_WORDS ≡ most_words }
    ensures frame { LONGEST_FRAME ≡ longest_frame }
    ensures play { LONGEST_PLAY ≡ longest_play }
    ensures record { LONGEST_RECORD ≡ longest_record }
    ensures message { LONGEST_MESSAGE ≡ longest_message }
{}

/// What goes over a link at once, and what is kept of it.
pub fn buffers_agree()
    ensures read { LONGEST_READ ≡ longest_read }
    ensures send { LONGEST_SEND ≡ longest_send }
    ensures unread { MOST_UNREAD ≡ most_unread }
    ensures to_send { PERFORM_LIMIT ≡ perform_limit }
    ensures event { EVENT_LIMIT ≡ event_limit }
    ensures output { OUTPUT_ROOM ≡ output_room }
{}

/// How long texts are, and what a client takes.
pub fn texts_and_clients_agree()
    ensures script { LONGEST_SCRIPT ≡ longest_script }
    ensures config { LONGEST_CONFIG ≡ longest_config }
    ensures address { LONGEST_ADDRESS ≡ longest_address }
    ensures source { LONGEST_SOURCE ≡ longest_source }
    ensures events { MOST_EVENTS ≡ most_events }
    ensures kept_events { MOST_KEPT_EVENTS ≡ most_kept_events }
{}
