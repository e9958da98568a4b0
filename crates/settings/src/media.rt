// Whether media is disabled, since when and for how long (document 02, W-207): Sanitize, which disables it, and when its work is due to end.
ghost use Rattle.std.specs.Prelude.{◌≡◌, ◌≤◌};
ghost use Rattle.settings.specs.Media.{enabled, rows, seconds_in, duration, sanitize, due};

// Enabled; or disabled since a caller's time, for so many nanoseconds.
#[repr(C)]
#[derive(Clone, Copy, Debug, PartialEq, Eq, Hash)]
pub struct MediaState {
    pub disabled: bool,
    pub(crate) since: u64,
    pub(crate) lasts: u64,
}

impl MediaState {
    // Media that is enabled.
    pub fn enabled() -> MediaState
        ensures { result ≡ enabled }
    {
        MediaState {
            disabled: false,
            since: 0,
            lasts: 0,
        }
    }

    // Whether the work is due to end when the caller's clock says time. No sum is made, so that none wraps.
    #[tactic(auto, unfolding(crate::specs::Media::due))]
    pub fn due(self, time: u64) -> bool
        ensures { result ≡ due self time }
    {
        self.disabled && self.since <= time && self.lasts <= time - self.since
    }
}

// The seconds that a Sanitize takes on a device of so many units, by the rows of the table; no device has more units than the last.
#[tactic(auto, unfolding(crate::specs::Media::rows))]
fn seconds(units: u32) -> u64
    ensures { (result ≡ seconds_in rows units) × (result ≤ 1800) }
{
    match units {
        ..=2 => 4,
        ..=4 => 8,
        ..=8 => 15,
        ..=16 => 30,
        ..=32 => 60,
        ..=64 => 120,
        ..=128 => 240,
        ..=256 => 480,
        ..=512 => 900,
        ..=1024 => 1800,
        _ => 0,
    }
}

// How many nanoseconds a Sanitize takes on a device of so many units.
#[tactic(auto, unfolding(crate::specs::Media::duration))]
fn duration(units: u32) -> u64
    ensures { result ≡ duration units }
{
    seconds(units) * 1000000000
}

// Sanitize: media after it, on a device of so many units, at the caller's time.
#[tactic(auto, unfolding(crate::specs::Media::sanitize))]
pub fn sanitize(units: u32, time: u64) -> MediaState
    ensures { result ≡ sanitize units time }
{
    MediaState {
        disabled: true,
        since: time,
        lasts: duration(units),
    }
}
