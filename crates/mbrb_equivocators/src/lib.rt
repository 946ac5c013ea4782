// The C interface: which nodes stand beside two payloads of one slot, by the records of two nodes, through numbers and
// byte slices.
//
// include/mbrb.h declares the functions beside those of crate mbrb_c. They are a crate of their own, so that a host
// which does not compare records does not link them.
#![tactic(auto)]

ghost use Rattle.std.specs.Prelude.{◌≡◌};
ghost use Rattle.config.specs.Config.{config_of};
ghost use Rattle.equivocators.specs.Equivocators.{equivocators};
ghost use Rattle.mbrb_equivocators.specs.Code.{named_word, check_code};

use config::Config;

// The nodes that are named, a bit for each; 0 where the records are not compared.
#[unsafe(no_mangle)]
pub extern "C" fn mbrb_equivocators(
    n: u8,
    t: u8,
    d: u8,
    own: u8,
    day: u32,
    quorum: u32,
    other: u8,
    first: &[u8],
    second: &[u8],
) -> u64
    ensures { result ≡ named_word (equivocators (config_of n t d own day quorum) other first.now second.now) }
{
    let config = Config::new(n, t, d, own, day, quorum);
    equivocators::equivocators(config, other, first, second).unwrap_or(0)
}

// Why the records are not compared: the refusal's number, or 0 where they are.
#[unsafe(no_mangle)]
pub extern "C" fn mbrb_check_equivocators(
    n: u8,
    t: u8,
    d: u8,
    own: u8,
    day: u32,
    quorum: u32,
    other: u8,
    first: &[u8],
    second: &[u8],
) -> u32
    ensures { result ≡ check_code (equivocators (config_of n t d own day quorum) other first.now second.now) }
{
    let config = Config::new(n, t, d, own, day, quorum);
    mbrb::verdict_code(equivocators::check_equivocators(config, other, first, second))
}
