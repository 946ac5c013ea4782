// RULES section 19: two nodes' records side by side. A node is named where its bit stands beside two payloads of one
// slot.
//
// A correct node signs one payload in a slot (R14.22). So on the lists of section 14 a node that correct nodes' records
// name is faulty (R19.7).
#![tactic(auto)]

ghost use Rattle.std.specs.Prelude.{◌≡◌, ◌<◌};
ghost use Rattle.refusal.specs.Refusal.{outcome_of, verdict_of};
ghost use Rattle.refusal.specs.Outcome.{plain};
ghost use Rattle.config.specs.Config.{slots, with_own};
ghost use Rattle.calls.specs.Day.{parts};
ghost use Rattle.equivocators.specs.Equivocators.{equivocators as equivocators_of, naming_of};
ghost use Rattle.equivocators.specs.Inner.{first_of, Distinct, Names, signed_both_by, among_records};

use calls::Day;
use config::Config;
use payload::Payload;
use record::Record;
use refusal::Refusal;

// R19.2 to R19.4: whose bit stands beside two payloads of one slot in the records of two nodes: those of `config` in
// `first` and those of `other`, in the same system and on the same day, in `second`. Both are lent for reading. Each
// record of both is tested and compared in one pass.
pub fn equivocators(config: Config, other: u8, first: &[u8], second: &[u8]) -> Result<u64, Refusal>
    ensures { naming_of result ≡ equivocators_of config other first.now second.now }
{
    let here = first_day(config, other, first)?;
    let Ok(there) = Day::new(config.with_own(other), second) else {
        // A malformed record of the first buffer comes before the length of the second.
        if !here.all_well_formed() {
            return Err(Refusal::MalformedRecord);
        }
        return Err(Refusal::RecordsLength);
    };
    let named = Pair { here, there }.compare()?;
    if config.own == other {
        return Err(Refusal::SameNode);
    }
    Ok(named)
}

// R11.7: why the records of two nodes are not compared, if they are not. Nobody is looked for, so that it costs less
// where nothing is refused.
pub fn check_equivocators(
    config: Config,
    other: u8,
    first: &[u8],
    second: &[u8],
) -> Result<(), Refusal>
    ensures { verdict_of result ≡ plain (equivocators_of config other first.now second.now) }
{
    let here = first_day(config, other, first)?;
    if !here.all_well_formed() {
        return Err(Refusal::MalformedRecord);
    }
    let there = Day::new(config.with_own(other), second)?;
    if !there.all_well_formed() {
        return Err(Refusal::MalformedRecord);
    }
    if config.own == other {
        Err(Refusal::SameNode)
    } else {
        Ok(())
    }
}

// R19.3: the day of the first buffer, where the configuration is good with both own numbers.
fn first_day(config: Config, other: u8, first: &[u8]) -> Result<Day<'_>, Refusal>
    ensures { outcome_of parts result ≡ first_of config other first.now }
{
    if !config.with_own(other).good() {
        return Err(Refusal::BadConfig);
    }
    Day::new(config, first)
}

// The records of two nodes of one system.
#[derive(Clone, Copy)]
struct Pair<'a> {
    here: Day<'a>,
    there: Day<'a>,
    ghost same_system: { there.config ≡ with_own here.config there.config.own },
}

impl Pair<'_> {
    ghost use Rattle.equivocators.specs.Found.{FoundInAll, FoundInSender, FoundInSlot};

    // Compares all records.
    fn compare(self) -> Result<u64, Refusal>
        ensures { FoundInAll self.entry result }
    {
        let mut named = 0;
        for sender in 0..self.here.config.n {
            named = signers::union(named, self.compare_sender(sender)?);
        }
        Ok(named)
    }

    // Compares the sixteen records of a sender.
    fn compare_sender(self, sender: u8) -> Result<u64, Refusal>
        requires sender_lt_n { sender < self.here.config.n }
        ensures { FoundInSender self.entry sender result }
    {
        let mut named = 0;
        for seq in 0..config::SLOTS {
            named = signers::union(named, self.compare_slot(sender, seq)?);
        }
        Ok(named)
    }

    // Compares the two records of a slot.
    fn compare_slot(self, sender: u8, seq: u8) -> Result<u64, Refusal>
        requires sender_lt_n { sender < self.here.config.n }
        requires seq_lt_slots { seq < slots }
        ensures { FoundInSlot self.entry sender seq result }
    {
        let here = self.here.well_formed_record(sender, seq)?;
        let there = self.there.well_formed_record(sender, seq)?;
        Ok(among(here, there))
    }
}

// Who stands beside two payloads in two records of a slot, each held or noted. The two payloads of one record are not
// compared: what a well-formed record notes is another payload than the one that it holds.
fn among(here: Record, there: Record) -> u64
    requires distinct { Distinct here }
    requires distinct_2 { Distinct there }
    ensures { Names (among_records here there) result }
{
    let held = Half::held(here);
    let noted = Half::noted(here);
    let other_held = Half::held(there);
    let other_noted = Half::noted(there);
    let both_held = held.signed_both(other_held);
    if noted.signers == 0 && other_noted.signers == 0 {
        return both_held;
    }
    let by_held = signers::union(
        signers::common(held.signers, noted.signers),
        signers::union(both_held, held.signed_both(other_noted)),
    );
    let by_noted = signers::union(
        noted.signed_both(other_held),
        noted.signed_both(other_noted),
    );
    let by_other = signers::common(other_held.signers, other_noted.signers);
    signers::union(by_held, signers::union(by_noted, by_other))
}

// A half of a record: a payload, and who stands beside it.
#[derive(Clone, Copy)]
struct Half {
    signers: u64,
    payload: Payload,
}

impl Half {
    ghost use Rattle.equivocators.specs.Found.{held_half, noted_half};

    // What the record holds.
    fn held(record: Record) -> Half
        ensures { result ≡ held_half «record» }
    {
        Half {
            signers: record.signers,
            payload: record.payload,
        }
    }

    // What it notes.
    fn noted(record: Record) -> Half
        ensures { result ≡ noted_half «record» }
    {
        let note = record.note;
        Half {
            signers: note.signers,
            payload: note.payload,
        }
    }

    // Who has signed both payloads, if they differ.
    fn signed_both(self, other: Half) -> u64
        ensures { Names (signed_both_by self.signers self.payload other.signers other.payload) result }
    {
        if self.payload.equals(other.payload) {
            0
        } else {
            signers::common(self.signers, other.signers)
        }
    }
}
