ghost use Rattle.std.specs.Prelude.{IsTrue};
ghost use Rattle.std.specs.Coded.{codes};
ghost use Rattle.std.proofs.Props.{props};
ghost use Rattle.policy.specs.Tree.{tree_code};
ghost use Rattle.rules.specs.ReadWriteSets.{is_in_form};
ghost use Rattle.candidates.specs.Written.{AreWritesOf};

use crate::written_key::WrittenKey;
use policy_eval::Signers;
use transaction::Tx;

/// A transaction whose flag the rules on the state decide.
#[derive(Drop)]
pub struct OpenTx<'a> {
    pub tx: Tx<'a>,
    pub signers: Signers<'a>,
    /// The keys that it writes in their order, each once.
    pub written: Vec<WrittenKey<'a>>,
    ghost in_form: { IsTrue (is_in_form tx) },
    ghost writes: { AreWritesOf tx written.items } by { Prim.hlevel (props, codes, tree_code) },
}
