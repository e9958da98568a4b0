// The clock (document 01, "Clock"), Get Timestamp and Set Timestamp.
ghost use Rattle.std.specs.Prelude.{◌≡◌, ◌≤◌, length};
ghost use Rattle.settings.specs.Clock.{unset, device_time, get_timestamp, set_timestamp};
ghost use Rattle.settings.specs.Relations.{Replied};

use wire::done::Done;
use wire::returns;

// Never set, or the value set and the caller's time at the setting.
#[repr(C)]
#[derive(Clone, Copy, Debug, PartialEq, Eq, Hash)]
pub struct Clock {
    pub(crate) set: bool,
    pub(crate) value: u64,
    pub(crate) since: u64,
}

impl Clock {
    // A clock that was never set.
    pub fn unset() -> Clock
        ensures { result ≡ unset }
    {
        Clock {
            set: false,
            value: 0,
            since: 0,
        }
    }

    // The device time when the caller's clock says time.
    #[tactic(auto, unfolding(crate::specs::Clock::device_time))]
    pub fn time(self, time: u64) -> u64
        ensures { result ≡ device_time self time }
    {
        if self.set {
            self.value.saturating_add(time.saturating_sub(self.since))
        } else {
            0
        }
    }

    // Get Timestamp.
    #[tactic(auto, using(wire::proofs::Laws::length_le, std::proofs::lemmas::Grind::common_steps), unfolding(crate::specs::Clock::get_timestamp))]
    pub fn get_timestamp(self, time: u64, reply: &mut [u8]) -> Done
        requires { 8 ≤ length reply.old }
        ensures { Replied (get_timestamp self time) result reply.old reply.new }
    {
        let now = self.time(time);
        wire::put(reply, 0, 8, now);
        Done {
            code: returns::SUCCESS,
            length: 8,
        }
    }
}

// Set Timestamp: the clock that follows.
#[tactic(auto, unfolding(crate::specs::Clock::set_timestamp))]
pub fn set_timestamp(payload: &[u8], time: u64) -> Clock
    requires { length payload.now ≡ 8 }
    ensures { result ≡ set_timestamp payload.now time }
{
    Clock {
        set: true,
        value: wire::get(payload, 0, 8),
        since: time,
    }
}
