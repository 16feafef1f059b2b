// What a slot says of its address, as values: what is wished of follow, and the head, changed by operations that hand the new
// head back. No byte place is known here.
#![tactic(auto)]

ghost use Rattle.std.specs.Prelude.{◌≡◌, ◌<◌};
ghost use Rattle.faults.specs.Refusals.{told};
ghost use Rattle.head.specs.Head.{wish_of, good_wish, wish_answer, free_head, new_head, started_head, held_head, whole_head, dropped_head, aged_head, good_head};
ghost use Rattle.head.specs.Move.{per_of, needs_of};

use faults::Refusal;

// What follow is asked: further wishes get their defaults in `new`.
#[derive(Clone, Copy)]
pub struct Wish {
    pub address: u32,
    pub limit: u32,
    pub protection: u32,
}

impl Wish {
    pub const LAST_ADDRESS: u32 = 1022;

    pub const LONGEST: u32 = 1500;

    pub fn new(address: u32, protection: u32, limit: u32) -> Self
        ensures { result ≡ wish_of address protection limit }
    {
        Self {
            address,
            limit,
            protection,
        }
    }

    #[tactic(auto, unfolding(crate::specs::Head::good_wish))]
    pub fn good(self) -> bool
        ensures { result ≡ good_wish self }
    {
        let address = (1 <= self.address) & (self.address <= Self::LAST_ADDRESS);
        let limit = (1 <= self.limit) & (self.limit <= Self::LONGEST);
        address & ((self.protection <= 1) & limit)
    }

    // 22, 23, 24: follow's rows about what is wished.
    pub fn answer(self) -> Result<(), Refusal>
        ensures { told result ≡ wish_answer self }
    {
        if (self.address < 1) | (Self::LAST_ADDRESS < self.address) {
            return Err(Refusal::Address);
        }
        if 1 < self.protection {
            return Err(Refusal::Protection);
        }
        if (self.limit < 1) | (Self::LONGEST < self.limit) {
            return Err(Refusal::Limit);
        }
        Ok(())
    }
}

// The group mark says that there is a whole group. It and the gap mark stay numbers: a state lent may hold any byte there, and 34 is told
// by `good_head`.
#[derive(Clone, Copy)]
pub struct Head {
    pub wish: Wish,
    pub age: u32,
    pub awaited: u8,
    pub group: u8,
    pub gap: u8,
}

impl Head {
    pub fn free() -> Self
        ensures { result ≡ free_head }
    {
        Self {
            wish: Wish {
                address: 0,
                limit: 0,
                protection: 0,
            },
            age: 0,
            awaited: 0,
            group: 0,
            gap: 0,
        }
    }

    pub fn new(wish: Wish) -> Self
        ensures { result ≡ new_head wish }
    {
        Self {
            wish,
            age: 0,
            awaited: 0,
            group: 0,
            gap: 0,
        }
    }

    // How many packets a group has, and how many of them make it whole.
    #[tactic(auto, unfolding(crate::specs::Move::per_of))]
    pub fn per(self) -> u8
        ensures { result ≡ per_of self }
    {
        4
    }

    #[tactic(auto, unfolding(crate::specs::Move::needs_of))]
    pub fn needs(self) -> u8
        ensures { result ≡ needs_of self }
    {
        self.per()
    }

    pub fn started(mut self) -> Self
        ensures { result ≡ started_head self }
    {
        if 0 < self.awaited {
            self.gap = 1;
        }
        self.awaited = 1;
        self
    }

    pub fn held(mut self) -> Self
        requires { self.awaited < 255 }
        ensures { result ≡ held_head self }
    {
        self.awaited += 1;
        self
    }

    pub fn whole(mut self) -> Self
        ensures { result ≡ whole_head self }
    {
        self.age = 0;
        self.awaited = 0;
        self.group = 1;
        self.gap = 0;
        self
    }

    pub fn dropped(mut self) -> Self
        ensures { result ≡ dropped_head self }
    {
        self.awaited = 0;
        self.gap = 1;
        self
    }

    pub fn aged(mut self) -> Self
        ensures { result ≡ aged_head self }
    {
        if (self.group == 1) & (self.age < Wish::LONGEST) {
            self.age += 1;
        }
        self
    }

    #[tactic(auto, unfolding(crate::specs::Head::good_head))]
    pub fn good(self) -> bool
        ensures { result ≡ good_head self }
    {
        let wish = self.wish;
        let marks = (self.awaited <= 3)
            & ((self.group <= 1) & ((self.gap <= 1) & (self.age <= Wish::LONGEST)));
        wish.good() & marks
    }
}
