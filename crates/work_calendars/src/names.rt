ghost use Rattle.std.specs.Prelude.{◌≡◌, ℕ, ◌↔◌, nat_eq, length, ◌≤◌, List, take, Some, IsTrue, IsSome, IfSome, refl};
ghost use Rattle.std.specs.Cmp.Lexicographic.{pointwise, slice_cmp, nat_list_eq_equiv, nat_list_cmp_total};
ghost use Rattle.std.specs.Cmp.Lexicographic.{texts_ties, texts_po};
ghost use Rattle.std.specs.Cmp.{partial_equiv_from_equiv};
ghost use Rattle.std.specs.Cmp.Rules.{hashing};
ghost use Rattle.std.specs.Ordering.{nat_cmp};
ghost use Rattle.std.specs.Hash as fed;
ghost use Rattle.std.proofs.Common.{rules};
ghost use Rattle.work_calendars.specs.Name.{is_name_byte, IsNameWithin, HoldsName, name_length, padded_name};
ghost use Rattle.work_calendars.specs.Name.{padded_name-held};

use std::cmp::Ordering;
use std::hash::{Hash, Hasher};
use std::marker::Model;

/// The greatest number of characters of a name.
pub const LONGEST_NAME: usize = 16;

/// The greatest number of characters of a short name.
pub const LONGEST_SHORT_NAME: usize = 8;

/// A name of an application or a calendar.
pub type Name = NameWithin<LONGEST_NAME>;

/// The name of an application.
pub type App = Name;

/// A short name, of a period or a run cycle.
pub type Short = NameWithin<LONGEST_SHORT_NAME>;

/// A name of 1 to `LONGEST` of the characters `A` to `Z`, `0` to `9`, `@`, `#` and `$`, the first one no digit.
/// Contracts see its bytes. Names compare and hash by their bytes.
#[derive(Clone, Copy, Debug)]
pub struct NameWithin<const LONGEST: usize> {
    // its bytes, and zeros after them
    bytes: [u8; LONGEST],
}

impl<const LONGEST: usize> Model for NameWithin<LONGEST> {
    ghost Value = { List ℕ };

    ghost view = { λ n. take (name_length n.bytes) n.bytes };

    ghost invariant = { λ n. HoldsName LONGEST n.bytes (name_length n.bytes) };

    ghost inverse = { λ s. record { bytes = padded_name LONGEST s } };

    ghost inverse_ok = { λ n h i. record {
      bytes = padded_name-held LONGEST n.bytes (name_length n.bytes) h i;
    } };
}

#[tactic(auto, unfolding(crate::specs::Name::is_name_byte))]
fn is_name_byte(byte: u8) -> bool
    ensures { result ≡ is_name_byte byte }
{
    matches!(byte, b'A'..=b'Z' | b'0'..=b'9' | b'@' | b'#' | b'$')
}

// How many bytes come before the first zero.
fn name_length(bytes: &[u8]) -> usize
    ensures within { result ≤ length bytes.now }
    ensures value { result ≡ name_length bytes.now }
{
    let mut len = 0;
    while len < bytes.len() && bytes[len] != 0 {
        len += 1;
    }
    len
}

// Whether the text is a name of at most that many characters.
fn is_name(text: &[u8], longest: usize) -> bool
    ensures { IsTrue result ↔ IsNameWithin longest text.now }
{
    !text.is_empty()
        && text.len() <= longest
        && !text[0].is_ascii_digit()
        && text.iter().all(|&byte| is_name_byte(byte))
}

impl<const LONGEST: usize> NameWithin<LONGEST> {
    /// The name that the text spells.
    pub fn from_text(text: &str) -> Option<NameWithin<LONGEST>>
        ensures valid { IsSome result ↔ IsNameWithin LONGEST text.now }
        ensures value { IfSome result (λ n. n ≡ text.now) }
    {
        let text = text.as_bytes();
        if !is_name(text, LONGEST) {
            return None;
        }
        let mut bytes = [0; LONGEST];
        bytes[..text.len()].copy_from_slice(text);
        Some(NameWithin { bytes })
    }

    /// The name's bytes, all of them ASCII.
    pub fn as_bytes(&self) -> &[u8]
        ensures value { result.now ≡ self.now }
        ensures named { IsNameWithin LONGEST result.now }
    {
        &self.bytes[..name_length(&self.bytes)]
    }

    /// The name's text.
    pub fn as_str(&self) -> &str
        ensures value { result.now ≡ self.now }
        ensures named { IsNameWithin LONGEST result.now }
    {
        match std::str::from_utf8(self.as_bytes()) {
            Ok(text) => text,
            Err(_) => unreachable!(),
        }
    }
}

impl<const LONGEST: usize> PartialEq for NameWithin<LONGEST> {
    ghost eq = { pointwise nat_eq };

    ghost laws = { partial_equiv_from_equiv nat_list_eq_equiv };

    fn eq(&self, other: &NameWithin<LONGEST>) -> bool {
        self.bytes == other.bytes
    }
}

impl<const LONGEST: usize> Eq for NameWithin<LONGEST> {
    ghost laws = { nat_list_eq_equiv };
}

impl<const LONGEST: usize> PartialOrd for NameWithin<LONGEST> {
    ghost partial_cmp = { λ x y. Some (slice_cmp nat_cmp x y) };

    ghost laws = { texts_po };

    fn partial_cmp(&self, other: &NameWithin<LONGEST>) -> Option<Ordering> {
        Some(self.cmp(other))
    }
}

impl<const LONGEST: usize> Ord for NameWithin<LONGEST> {
    ghost cmp = { slice_cmp nat_cmp };

    ghost total = { nat_list_cmp_total };

    ghost matches_partial_cmp = { λ x y. refl };

    ghost matches_eq = { texts_ties };

    fn cmp(&self, other: &NameWithin<LONGEST>) -> Ordering {
        self.bytes.cmp(&other.bytes)
    }
}

impl<const LONGEST: usize> Hash for NameWithin<LONGEST> {
    ghost hash_input = { fed.str };

    ghost respects_eq = { Prim.search (hashing, rules) };

    fn hash<H: Hasher>(&self, state: &mut H) {
        self.as_str().hash(state);
    }
}
