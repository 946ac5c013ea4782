// The configuration that the nodes of a system share except for `own`, called table in the formats (R2.1). And
// the slots of a day, with the place that each has in the day's records.
//
// The methods take the configuration by value (R17.9) and are defined for every value of every field. One that
// is not good has quorum 0, mask 0 and place 0 (R2.5). A caller asks `good` first: every set has a quorum of 0,
// and 0 is the place of a slot, too.
#![tactic(auto)]

ghost use Rattle.std.specs.Prelude.{◌≡◌};
ghost use Rattle.config.specs.Config.{config_of, least_quorum, most_quorum, good, quorum, mask, slot_place, place, records_size, with_own, slot_of_day};

// Slots of one sender in a day.
pub const SLOTS: u8 = 16;

// Bytes of one record, and so the distance from one slot's place to the next.
pub const RECORD_SIZE: usize = 64;

// R2.9: the least quorum that a site may choose.
pub fn least_quorum(n: u8, t: u8) -> u32
    ensures { result ≡ least_quorum n t }
{
    (u32::from(n) + u32::from(t)) / 2 + 1
}

// R2.9: the most that a site may choose. Where n is not more than 3t + 2d it is less than the least.
pub fn most_quorum(n: u8, t: u8, d: u8) -> u32
    ensures { result ≡ most_quorum n t d }
{
    u32::from(n).saturating_sub(u32::from(t) + u32::from(d))
}

// R2.6: what a broadcast has to itself. It is the sender's `seq`-th of the day, counted from 0.
#[derive(Clone, Copy, Debug, PartialEq, Eq)]
pub struct Slot {
    pub day: u32,
    pub sender: u8,
    // the sequence number, called number in the formats
    pub seq: u8,
}

impl Slot {
    // R4.3: where the slot's record starts among the records of its day.
    pub fn place(self) -> usize
        ensures { result ≡ slot_place self }
    {
        RECORD_SIZE * (usize::from(SLOTS) * usize::from(self.sender) + usize::from(self.seq))
    }
}

#[derive(Clone, Copy, Debug, PartialEq, Eq)]
pub struct Config {
    // how many nodes the system has, 1 to 64
    pub n: u8,
    // how many of them may be faulty
    pub t: u8,
    // how many correct nodes may miss one sending
    pub d: u8,
    // the number of this node
    pub own: u8,
    pub day: u32,
    // the quorum that the site chose; `quorum` tells it
    q: u32,
}

impl Config {
    // R2.1: the configuration of these numbers, which may be any.
    pub fn new(n: u8, t: u8, d: u8, own: u8, day: u32, q: u32) -> Config
        ensures { result ≡ config_of n t d own day q }
    {
        Config {
            n,
            t,
            d,
            own,
            day,
            q,
        }
    }

    // R2.2: whether the protocol can run on this configuration. No call works on one that is not good. The quorum
    // may be any number of 32 bits, so it is added to in 64. That n is more than 3t + 2d needs no test: where it
    // is not, there is no quorum in range (R2.8). The own number comes last, since the compiler joins its test and
    // that of 64 into flags where they stand together, which costs more than both.
    pub fn good(self) -> bool
        ensures { result ≡ good self }
    {
        if 64 < self.n {
            return false;
        }
        if u64::from(self.n) < u64::from(self.q) + u64::from(self.t) + u64::from(self.d) {
            return false;
        }
        if 2 * u64::from(self.q) <= u64::from(self.n) + u64::from(self.t) {
            return false;
        }
        self.own < self.n
    }

    // R2.3: how many signers deliver a payload.
    pub fn quorum(self) -> u32
        ensures { result ≡ quorum self }
    {
        if !self.good() {
            return 0;
        }
        self.q
    }

    // R2.4: the signer set of all nodes.
    pub fn mask(self) -> u64
        ensures { result ≡ mask self }
    {
        if !self.good() {
            return 0;
        }
        signers::below(self.n)
    }

    // The configuration of the same system at another node.
    pub fn with_own(self, own: u8) -> Config
        ensures { result ≡ with_own self own }
    {
        Config::new(self.n, self.t, self.d, own, self.day, self.q)
    }

    // A slot of the configuration's day.
    pub fn slot_of_day(self, sender: u8, seq: u8) -> Slot
        ensures { result ≡ slot_of_day self sender seq }
    {
        Slot {
            day: self.day,
            sender,
            seq,
        }
    }

    // R2.4: the slot's place, or 0 for a slot that is not in range. The day is not looked at. A caller that has
    // made sure of the slot asks the slot itself.
    pub fn place(self, slot: Slot) -> usize
        ensures { result ≡ place self slot }
    {
        if !self.good() {
            return 0;
        }
        if self.n <= slot.sender {
            return 0;
        }
        if SLOTS <= slot.seq {
            return 0;
        }
        slot.place()
    }

    // R4.2: how many bytes the records of a day take: 1,024 × n, also where the configuration is not good.
    pub fn records_size(self) -> usize
        ensures { result ≡ records_size self }
    {
        RECORD_SIZE * usize::from(SLOTS) * usize::from(self.n)
    }
}
