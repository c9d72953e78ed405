//! The texts of vectors, transactions and pairs.

ghost use Rattle.std.specs.Prelude.{Some};
ghost use Rattle.dm_text.specs.Text.{Appends};
ghost use Rattle.dm_text.specs.Texts.{txn_text, vector_text, pair_text, pairs_text};

use dm_event::{NoMemory, Pair, Pairs, TxnId, Vector};
use std::alloc::Global;
use std::fmt;

/// Displays a transaction as `SESSION.NUMBER.ATTEMPT`.
#[derive(Drop)]
pub struct TxnText<'a>(pub &'a TxnId);

impl fmt::Display for TxnText<'_> {
    ghost output = { λ t. Some (txn_text t.0.now) };

    #[tactic(auto, unfolding(crate::specs::Texts::txn_text))]
    fn fmt<W: fmt::Write>(&self, f: &mut fmt::Formatter<W>) -> fmt::Result {
        let TxnId {
            session,
            number,
            attempt,
        } = self.0;
        write!(f, "{session}.{number}.{attempt}")
    }
}

/// Displays a vector as its numbers in brackets, with a space between each two.
#[derive(Drop)]
pub struct VectorText<'a>(pub &'a Vector);

impl fmt::Display for VectorText<'_> {
    ghost output = { λ v. Some (vector_text v.0.now) };

    #[tactic(auto, unfolding(crate::specs::Texts::vector_text))]
    fn fmt<W: fmt::Write>(&self, f: &mut fmt::Formatter<W>) -> fmt::Result {
        match self.0.as_slice() {
            [] => write!(f, "[]"),
            [first, rest @ ..] => {
                write!(f, "[{first}")?;
                for n in rest {
                    write!(f, " {n}")?;
                }
                write!(f, "]")
            }
        }
    }
}

#[derive(Drop)]
struct PairText<'a>(&'a Pair);

impl fmt::Display for PairText<'_> {
    ghost output = { λ p. Some (pair_text p.0.now) };

    #[tactic(auto, unfolding(crate::specs::Texts::pair_text))]
    fn fmt<W: fmt::Write>(&self, f: &mut fmt::Formatter<W>) -> fmt::Result {
        let Pair { key, value } = self.0;
        write!(f, "{key}:{value}")
    }
}

/// Displays pairs as `KEY:VALUE`, with a comma between each two, and an empty list as `-`.
#[derive(Drop)]
pub struct PairsText<'a>(pub &'a Pairs);

impl fmt::Display for PairsText<'_> {
    ghost output = { λ p. Some (pairs_text p.0.now) };

    #[tactic(auto, unfolding(crate::specs::Texts::pairs_text))]
    fn fmt<W: fmt::Write>(&self, f: &mut fmt::Formatter<W>) -> fmt::Result {
        match self.0.as_slice() {
            [] => write!(f, "-"),
            [first, rest @ ..] => {
                let first = PairText(first);
                write!(f, "{first}")?;
                for pair in rest {
                    let pair = PairText(pair);
                    write!(f, ",{pair}")?;
                }
                Ok(())
            }
        }
    }
}

/// Appends a text.
pub fn put_text(out: &mut Vec<u8>, text: &str) -> Result<(), NoMemory>
    ensures { Appends result out.old.items out.new.items text.now }
{
    Ok(out.extend_from_slice(text.as_bytes())?)
}

/// Appends a transaction's text.
pub fn put_txn(alloc: Global, out: &mut Vec<u8>, txn: &TxnId) -> Result<(), NoMemory>
    ensures { Appends result out.old.items out.new.items (txn_text txn.now) }
{
    put_text(out, &TxnText(txn).to_string(alloc)?)
}

/// Appends a vector's text.
pub fn put_vector(alloc: Global, out: &mut Vec<u8>, vector: &Vector) -> Result<(), NoMemory>
    ensures { Appends result out.old.items out.new.items (vector_text vector.now) }
{
    put_text(out, &VectorText(vector).to_string(alloc)?)
}

/// Appends the text of pairs.
pub fn put_pairs(alloc: Global, out: &mut Vec<u8>, pairs: &Pairs) -> Result<(), NoMemory>
    ensures { Appends result out.old.items out.new.items (pairs_text pairs.now) }
{
    put_text(out, &PairsText(pairs).to_string(alloc)?)
}
