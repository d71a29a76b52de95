use crate::keyed::Keyed;
use external_dependencies::Pair;

impl Keyed for Pair {
    ghost use Rattle.external_dependencies.proofs.PairLemmas.{pair_ties};

    type Key = Pair;

    ghost key_of = { λ pair. pair };

    ghost ties = { pair_ties };

    fn key(&self) -> Pair {
        *self
    }
}
