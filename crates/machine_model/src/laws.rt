//! Laws of the definitions, each a function that does nothing: its clauses are the law.

ghost use Rattle.msp_encode.specs.Spelling.{Legal};
ghost use Rattle.machine_model.specs.Does.{FormOk};

use msp_encode::instr::Instr;

/// A legal instruction names registers 0 to 15, and a legal jump goes -512 to 511 words.
#[tactic(auto, using(crate::proofs::LegalForms::legal_form))]
pub fn legal_form(i: &Instr)
    requires { Legal i.now }
    ensures { FormOk i.now }
{
    let _ = i;
}
