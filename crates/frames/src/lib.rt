// The frames that were heard, by their counts: distances, changes, and whether one was missed. Every count is answered.
#![tactic(auto)]

ghost use Rattle.std.specs.Prelude.{◌≡◌};
ghost use Rattle.frames.specs.Counts.{ahead, since, until, good_frames, changing, again, skips, row_after, frames_after, enough, all_heard};

// The last frame count, whether there is one, whether every frame of the running configuration was heard so far, and how many were heard
// in a row since the start or the last missed one, up to 255. The two marks are bytes, and no bools: a map that is lent may hold any
// byte there, and 34 is told by `good`.
#[derive(Clone, Copy)]
pub struct Frames {
    pub last: u8,
    pub heard: u8,
    pub unbroken: u8,
    pub row: u8,
}

// The distance between two frame counts, across the wrap from 127 to 0.
#[tactic(auto, unfolding(crate::specs::Counts::ahead))]
fn ahead(from: u8, to: u8) -> u8
    ensures { result ≡ ahead from to }
{
    to.wrapping_sub(from) % 128
}

// How many frames from one that was heard to one that comes, or is asked for. The same frame is told by all eight bits of its count, so
// that other counts of the same distance are 128 frames apart.
#[tactic(auto, unfolding(crate::specs::Counts::since))]
fn since(from: u8, to: u8) -> u8
    ensures { result ≡ since from to }
{
    if from == to {
        return 0;
    }
    let distance = ahead(from, to);
    if distance == 0 { 128 } else { distance }
}

impl Frames {
    // Frames in a row after which a component of which nothing came is held to be absent: a rule of the house.
    pub const ENOUGH: u8 = 255;

    #[tactic(auto, unfolding(crate::specs::Counts::good_frames))]
    pub fn good(self) -> bool
        ensures { result ≡ good_frames self }
    {
        self.heard <= 1 && self.unbroken <= 1
    }

    // In how many frames behind the last one the next change comes: at the frame with count 2.
    #[tactic(auto, unfolding(crate::specs::Counts::until, crate::specs::Counts::ahead))]
    pub fn until(self) -> u8
        ensures { result ≡ until self.last }
    {
        ahead(self.last, 1) + 1
    }

    // A change falls behind the last frame, up to that with a count.
    #[tactic(auto, unfolding(crate::specs::Counts::changing, crate::specs::Counts::changes))]
    pub fn changing(self, count: u8) -> bool
        ensures { result ≡ changing self count }
    {
        self.heard == 1 && ahead(2, count) < since(self.last, count)
    }

    // One of the same frame's five identical blocks.
    #[tactic(auto, unfolding(crate::specs::Counts::again))]
    pub fn again(self, count: u8) -> bool
        ensures { result ≡ again self count }
    {
        self.heard == 1 && self.last == count
    }

    // A frame is missed on the way to that with a count.
    #[tactic(auto, unfolding(crate::specs::Counts::skips))]
    pub fn skips(self, count: u8) -> bool
        ensures { result ≡ skips self count }
    {
        self.heard == 1 && 1 < since(self.last, count)
    }

    // Nothing more of what is announced can come before the next change: the last frame is the last one before it, and none of the
    // configuration was missed.
    #[tactic(auto, unfolding(crate::specs::Counts::all_heard))]
    pub fn all_heard(self) -> bool
        ensures { result ≡ all_heard self }
    {
        self.unbroken == 1 && self.until() == 1
    }

    #[tactic(auto, unfolding(crate::specs::Counts::frames_after, crate::specs::Counts::begins))]
    pub fn after(self, count: u8) -> Self
        ensures { result ≡ frames_after self count }
    {
        let row = self.row_after(count);
        let missed = self.skips(count);
        let begins = ahead(2, count) == 0;
        // A configuration's first frame is the beginning of all of it, whatever was missed before.
        let unbroken = if begins {
            1
        } else if missed {
            0
        } else {
            self.unbroken
        };
        Self {
            last: count,
            heard: 1,
            unbroken,
            row,
        }
    }

    #[tactic(auto, unfolding(crate::specs::Counts::row_after))]
    fn row_after(self, count: u8) -> u8
        ensures { result ≡ row_after (skips self count) self.row }
    {
        if self.skips(count) {
            1
        } else {
            self.row.saturating_add(1)
        }
    }

    // Nothing heard of a component means that there is none.
    #[tactic(auto, unfolding(crate::specs::Counts::enough))]
    pub fn enough(self) -> bool
        ensures { result ≡ enough self }
    {
        Self::ENOUGH <= self.row
    }
}
