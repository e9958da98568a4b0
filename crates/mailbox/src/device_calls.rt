// The device-side calls (document 01, "What the device does"): event report, media report, line test, event status, damage total.
// A report lends the part that it sees to its function of `by_parts`, which changes it where it lies. It makes its answer once, after that: with a
// second answer for a refusal, parts that do not change would be copied too.
ghost use Rattle.std.specs.Prelude.{◌≡◌};
ghost use Rattle.mailbox.specs.State.{ValidDevice, state_of};
ghost use Rattle.mailbox.specs.DeviceCalls.{event_report, media_report, line_test, event_status, damage_total};
ghost use Rattle.mailbox.specs.Ending.{AfterEnding};
ghost use Rattle.mailbox.specs.declared.device.Device.{Device};
ghost use Rattle.mailbox.specs.Relations.{EventDone, MediaDone, LineDone, StatusGiven};
ghost use Rattle.mailbox.specs.InPlace.{event_told, media_told};

use crate::by_parts;
use crate::by_parts::{EventTold, MediaTold};
use crate::device::Device;
use crate::line_status::LineStatus;
use events::status;
use events::status::Status;
use settings::vector;
use wire::returns;

#[derive(Clone, Copy, Debug, PartialEq, Eq)]
pub struct EventAnswer {
    pub code: u16,
    pub stored: bool,
    pub device: Device,
    pub vector: Option<u8>,
}

#[derive(Clone, Copy, Debug, PartialEq, Eq)]
pub struct MediaAnswer {
    pub code: u16,
    pub stored: u32,
    pub dropped: u32,
    pub device: Device,
}

#[derive(Clone, Copy, Debug, PartialEq, Eq)]
pub struct LineAnswer {
    pub code: u16,
    pub answer: LineStatus,
}

impl Device {
    // Event report of a record to a log, at the caller's time.
    pub fn event_report(mut self, time: u64, log: u8, event: &[u8]) -> EventAnswer
        requires { ValidDevice self }
        ensures { AfterEnding self time (λ (e : Device). EventDone (event_report (state_of self) time log event.now) e result) }
    {
        let told = self.take_event(time, log, event);
        EventAnswer {
            code: told.code,
            stored: told.stored,
            device: self,
            vector: vector::numbered(told.vector),
        }
    }

    // The same for a device where it lies.
    pub fn take_event(&mut self, time: u64, log: u8, event: &[u8]) -> EventTold
        requires { ValidDevice self.old }
        ensures { AfterEnding self.old time (λ (e : Device). EventDone (event_report (state_of self.old) time log event.now) e (event_told result self.new)) }
    {
        self.end_due(time);
        let k = by_parts::log_at(log);
        by_parts::event_report_in(&mut self.logs[k], self.clock, self.policy, time, log, event)
    }

    // Media report of damage: so many lines from an address on, of a type, at the caller's time.
    pub fn media_report(mut self, time: u64, address: u64, lines: u32, kind: u8) -> MediaAnswer
        requires { ValidDevice self }
        ensures { AfterEnding self time (λ (e : Device). MediaDone (media_report (state_of self) time address lines kind) e result) }
    {
        let told = self.take_media(time, address, lines, kind);
        MediaAnswer {
            code: told.code,
            stored: told.stored,
            dropped: told.dropped,
            device: self,
        }
    }

    // The same for a device where it lies.
    pub fn take_media(&mut self, time: u64, address: u64, lines: u32, kind: u8) -> MediaTold
        requires { ValidDevice self.old }
        ensures { AfterEnding self.old time (λ (e : Device). MediaDone (media_report (state_of self.old) time address lines kind) e (media_told result self.new)) }
    {
        self.end_due(time);
        by_parts::media_report_in(
            &mut self.poison,
            self.clock,
            self.volatile,
            self.persistent,
            time,
            address,
            lines,
            kind,
        )
    }

    // Line test: what the host is told of the line at an address.
    pub fn line_test(self, address: u64) -> LineAnswer
        requires { ValidDevice self }
        ensures { LineDone (line_test (state_of self) address) result }
    {
        let code = by_parts::check_address(self.volatile, self.persistent, address);
        if code != returns::SUCCESS {
            return LineAnswer {
                code,
                answer: LineStatus::Unknown,
            };
        }
        if self.media.disabled {
            return LineAnswer {
                code: returns::SUCCESS,
                answer: LineStatus::Disabled,
            };
        }
        // Copied out: lent from a device by value, the list costs a copy of the whole device as compiled (measured: 1,540 instructions a line test; copied out, 826).
        let list = self.poison;
        let answer = list.test((address / 64) as u32);
        LineAnswer {
            code: returns::SUCCESS,
            answer: LineStatus::from(answer),
        }
    }

    // Event status: which logs wait, how many, and the highest-numbered one.
    pub fn event_status(self) -> Status
        requires { ValidDevice self }
        ensures { StatusGiven (event_status (state_of self)) result }
    {
        status::event_status(self.logs)
    }

    // Damage total: the sum of entry lengths.
    pub fn damage_total(self) -> u64
        requires { ValidDevice self }
        ensures { result ≡ damage_total (state_of self) }
    {
        // Copied out, as for the line test.
        let list = self.poison;
        list.total()
    }
}
