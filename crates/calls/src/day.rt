// R4.2: the records of a day, lent for reading, beside the configuration that they belong to.

ghost use Rattle.std.specs.Prelude.{◌≡◌, true, ◌<◌, length};
ghost use Rattle.config.specs.Config.{good, slots, records_size, slot_of_day};
ghost use Rattle.record.specs.Record.{bytes};
ghost use Rattle.calls.specs.Records.{record_at};
ghost use Rattle.calls.specs.WellFormed.{sender_well_formed, all_well_formed};

use config::Config;
use record::Record;
use refusal::Refusal;

#[derive(Clone, Copy)]
pub struct Day<'a> {
    pub config: Config,
    pub records: &'a [u8],
    pub ghost config_value: { good config ≡ true },
    pub ghost records_len: { length records.now ≡ records_size config },
}

impl<'a> Day<'a> {
    ghost use Rattle.refusal.specs.Refusal.{outcome_of};
    ghost use Rattle.calls.specs.Day.{day_of, parts, slot_record};

    // The day of a good configuration and a buffer of its size.
    pub fn new(config: Config, records: &'a [u8]) -> Result<Day<'a>, Refusal>
        ensures { outcome_of parts result ≡ day_of config records.now }
    {
        if !config.good() {
            return Err(Refusal::BadConfig);
        }
        if records.len() != config.records_size() {
            return Err(Refusal::RecordsLength);
        }
        Ok(Day { config, records })
    }

    // The record of a slot, or why it has none that counts: the slot is not in range, or the record is not well-formed.
    // The compiler takes the test of the sender out of a loop over its numbers.
    pub fn well_formed_record(self, sender: u8, seq: u8) -> Result<Record, Refusal>
        ensures { outcome_of bytes result ≡ slot_record self.entry.config self.entry.records.now sender seq }
    {
        if self.config.n <= sender {
            return Err(Refusal::SenderRange);
        }
        if config::SLOTS <= seq {
            return Err(Refusal::SeqRange);
        }
        let record = self.record(sender, seq);
        if !record.well_formed(self.config, sender) {
            return Err(Refusal::MalformedRecord);
        }
        Ok(record)
    }

    // The record of a slot that is in range.
    #[tactic(auto, using(crate::proofs::Days::room))]
    pub(crate) fn record(self, sender: u8, seq: u8) -> Record
        requires sender_lt_n { sender < self.config.n }
        requires seq_lt_slots { seq < slots }
        ensures { bytes result ≡ record_at self.entry.config (slot_of_day self.entry.config sender seq) self.entry.records.now }
    {
        let start = self.config.slot_of_day(sender, seq).place();
        record::load(&self.records[start..start + config::RECORD_SIZE])
    }

    // Whether all records are well-formed.
    #[inline(always)]
    pub fn all_well_formed(self) -> bool
        ensures { result ≡ all_well_formed self.entry.config self.entry.records.now }
    {
        records_well_formed(self.config, self.records)
    }

    // Whether the sixteen of a sender are.
    fn sender_well_formed(self, sender: u8) -> bool
        requires sender_lt_n { sender < self.config.n }
        ensures { result ≡ sender_well_formed self.entry.config self.entry.records.now sender }
    {
        for seq in 0..config::SLOTS {
            if !self.record(sender, seq).well_formed(self.config, sender) {
                return false;
            }
        }
        true
    }
}

// The same of a day by its parts, which are passed in registers: a day lies in 32 bytes of its caller's stack for each
// call. A good configuration has no more than 64 nodes; the compiler learns it by the test, since this function is not
// joined to its callers, and leaves out a test of the sender for each record.
#[inline(never)]
fn records_well_formed(config: Config, records: &[u8]) -> bool
    requires config_value { good config ≡ true }
    requires records_len { length records.now ≡ records_size config }
    ensures { result ≡ all_well_formed config records.now }
{
    if 64 < config.n {
        return false;
    }
    let day = Day { config, records };
    for sender in 0..config.n {
        if !day.sender_well_formed(sender) {
            return false;
        }
    }
    true
}
