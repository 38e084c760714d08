//! The numbers of the records that came.
ghost use Rattle.std.specs.Prelude.{◌≡◌, ◌-◌, ◌<◌, ◌≤◌, ℕ, List, [], ◌∷◌};
ghost use Rattle.std.specs.Int.{bit_at};
ghost use Rattle.replay_window.specs.Replay.{RecordNumber, Remembers, is_new as is_new_behind};

/// The width of the window, in numbers.
const WIDTH: u64 = 64;

/// The sequence numbers of a sender's records in their highest epoch: the highest one, and which of
/// the 63 before it came.
#[derive(Clone, Copy)]
pub struct ReplayWindow {
    epoch: u16,
    highest: u64,
    // Bit i is set if the number i below the highest one came.
    bits: u64,
}

/// The bits once the highest number is this much higher.
fn shifted(bits: u64, by: u64) -> u64
    ensures highest { bit_at result 0 ≡ 1 }
    ensures between { (i : ℕ) → 0 < i → i < by → i < 64 → bit_at result i ≡ 0 }
    ensures earlier { (i : ℕ) → 0 < i → by ≤ i → i < 64 → bit_at result i ≡ bit_at bits (i - by) }
{
    if by < WIDTH { bits << by | 1 } else { 1 }
}

impl ReplayWindow {
    /// A window before the first record.
    pub fn new() -> ReplayWindow
        ensures { Remembers [] result }
    {
        ReplayWindow {
            epoch: 0,
            highest: 0,
            bits: 0,
        }
    }

    /// Whether a record is new: no record with its epoch and number came, none with a number of its
    /// epoch that is 64 or more above, and none of a later epoch.
    pub fn is_new(&self, epoch: u16, sequence_number: u64) -> bool
        ensures { (came : List RecordNumber) → Remembers came self.now
            → result ≡ is_new_behind came
            (record { epoch = epoch; sequence_number = sequence_number }) }
    {
        if epoch != self.epoch {
            return epoch > self.epoch;
        }
        if sequence_number > self.highest {
            return true;
        }
        let below = self.highest - sequence_number;
        below < WIDTH && (self.bits >> below) & 1 == 0
    }

    /// Adds a record's number.
    pub fn insert(&mut self, epoch: u16, sequence_number: u64)
        ensures { (came : List RecordNumber) → Remembers came self.old
            → Remembers (record { epoch = epoch; sequence_number = sequence_number } ∷ came)
            self.new }
    {
        if epoch != self.epoch {
            if epoch > self.epoch {
                self.epoch = epoch;
                self.highest = sequence_number;
                self.bits = 1;
            }
            return;
        }
        if sequence_number > self.highest {
            self.bits = shifted(self.bits, sequence_number - self.highest);
            self.highest = sequence_number;
            return;
        }
        let place = self.highest - sequence_number;
        if place < WIDTH {
            self.bits = self.bits | 1 << place;
        }
    }
}
