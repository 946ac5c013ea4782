// The lines of a run file, read: its two names lines, the table row and the step rows.
//
// Every function is defined for all bytes and lengths. What is not of the format is `None`.
#![tactic(auto)]

ghost use Rattle.std.specs.Prelude.{◌≡◌, cond, drop};
ghost use Rattle.octets.specs.Octets.{same};
ghost use Rattle.text.specs.Text.{after_fields, number_at};
ghost use Rattle.row.specs.Row.{table_names, step_names, table_in, row_in, broadcast_fields, broadcast_row, receive_fields, receive_row};
ghost use Rattle.row.specs.RowParts.{node_in, hex_payload_in};

use config::Config;
use payload::Payload;

// What happens at a node (R15.8): act A broadcasts a payload, act B receives a bundle.
#[derive(Clone, Copy)]
pub enum Step {
    Broadcast {
        payload: Payload,
    },
    Receive {
        sender: u8,
        seq: u8,
        signers: u64,
        payload: Payload,
    },
}

// A step row that is read: what happens, and the node at which it does.
#[derive(Clone, Copy)]
pub struct StepRow {
    pub node: u8,
    pub step: Step,
}

// Whether the line has the names of the table, to the byte (R15.5). Each of the two has its line as fixed bytes, as
// R17.9 asks; with the line as a parameter it would be `text::same` itself.
pub fn is_table_names(line: &[u8]) -> bool
    ensures { result ≡ same line.now table_names }
{
    text::same(line, b"units faults losses day quorum")
}

// Whether the line has the names of the steps, to the byte (R15.5).
pub fn is_step_names(line: &[u8]) -> bool
    ensures { result ≡ same line.now step_names }
{
    text::same(line, b"act unit sender number signers body")
}

// The configuration that a table row gives, with own number 0 (R15.6, but for the bound of 8 nodes).
pub fn read_table(line: &[u8]) -> Option<Config>
    ensures { result ≡ table_in line.now }
{
    let (n, faults_at) = byte_at(line, 0)?;
    let (t, losses_at) = byte_at(line, faults_at)?;
    let (d, day_at) = byte_at(line, losses_at)?;
    let (day, quorum_at) = text::number_at(u32::MAX, line, day_at)?;
    let (quorum, end) = text::number_at(u32::MAX, line, quorum_at)?;
    if end != line.len() + 1 {
        return None;
    }
    let config = Config::new(n, t, d, 0, day, quorum);
    config.good().then_some(config)
}

// The step that a row gives in a system of n nodes, if it is read (R15.8 to R15.10). The act is looked at
// first: after tests of the other fields the compiler takes the steps for rare, and passes them on by way of
// memory.
pub fn read_row(n: u8, line: &[u8]) -> Option<StepRow>
    ensures { result ≡ row_in n line.now }
{
    match line {
        [b'B', b' ', ..] => ActLine { n, line }.receive(),
        [b'A', b' ', ..] => ActLine { n, line }.broadcast(),
        _ => None,
    }
}

// A line whose first field is an act of one letter, in a system of n nodes. The fields after the act start
// at index 2.
#[derive(Clone, Copy)]
struct ActLine<'a> {
    n: u8,
    line: &'a [u8],
    ghost after_act: { after_fields 1 line.now ≡ drop 2 line.now },
}

impl ActLine<'_> {
    // A row of act A: after its node three dashes and the payload.
    fn broadcast(self) -> Option<StepRow>
        ensures { result ≡ cond (broadcast_fields self.entry.n self.entry.line.now) (broadcast_row self.entry.line.now) None }
    {
        let (node, at) = self.node()?;
        let digits = self.line.get(at..)?.strip_prefix(b"- - - ")?;
        let payload = read_payload(digits)?;
        let step = Step::Broadcast { payload };
        Some(StepRow { node, step })
    }

    // A row of act B: after its node the sender, seq, signers and payload.
    fn receive(self) -> Option<StepRow>
        ensures { result ≡ cond (receive_fields self.entry.n self.entry.line.now) (receive_row self.entry.line.now) None }
    {
        let (node, sender_at) = self.node()?;
        let (sender, seq_at) = byte_at(self.line, sender_at)?;
        let (seq, at) = byte_at(self.line, seq_at)?;
        let (signers, rest) = self.line.get(at..)?.split_at_checked(16)?;
        let digits = rest.strip_prefix(b" ")?;
        let signers = text::hex(signers)?;
        let payload = read_payload(digits)?;
        let step = Step::Receive {
            sender,
            seq,
            signers,
            payload,
        };
        Some(StepRow { node, step })
    }

    // The node of the row, if it is one of the n, and the index at which the next field starts.
    fn node(self) -> Option<(u8, usize)>
        ensures { result ≡ node_in self.entry.n self.entry.line.now }
    {
        let (node, next) = byte_at(self.line, 2)?;
        if self.n <= node {
            return None;
        }
        Some((node, next))
    }
}

// The plain number that fits a byte and starts at index `at`, and the index at which the next field starts.
fn byte_at(line: &[u8], at: usize) -> Option<(u8, usize)>
    ensures { result ≡ number_at 255 line.now at }
{
    let (value, next) = text::number_at(255, line, at)?;
    Some((value as u8, next))
}

// The payload that 32 hexadecimal digits write.
fn read_payload(digits: &[u8]) -> Option<Payload>
    ensures { result ≡ hex_payload_in digits.now }
{
    if digits.len() != 32 {
        return None;
    }
    let high = text::hex(&digits[..16])?;
    let low = text::hex(&digits[16..])?;
    Some(Payload { high, low })
}
