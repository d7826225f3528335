//! From a text to the programs of its network.
ghost use Rattle.std.specs.Prelude.{◌≡◌, ℕ, Err, IfOk, IsTrue, ◌↔◌};
ghost use Rattle.std.specs.Str.{bytes_eq};
ghost use Rattle.tis_base.specs.Answers.{Gives};
ghost use Rattle.tis_asm.specs.Programs.{IsSound, program_at};
ghost use Rattle.net_tree.specs.Tree.{Net as SomeNet};
ghost use Rattle.net_tree.specs.NetText.{net_text};
ghost use Rattle.net_tree.specs.View.{net_view};
ghost use Rattle.net_rules.specs.CheckedNet.{IsSmallNet};
ghost use Rattle.net_rules.specs.Numbers.{numbered};
ghost use Rattle.net_column.specs.Carries.{Carries};
ghost use Rattle.net_column.specs.Column.{IsColumn};
ghost use Rattle.net_column.specs.Compiled.{compiled};
ghost use Rattle.net_column.specs.Form.{HasForm, KeepsForm};

use crate::emitting::emit;
use crate::error::FormError;
use crate::form::is_column;
use crate::laws::read_networks_are_small;
use net_rules::check;
use net_syntax::{Net, read_net, write_net};
use std::alloc::Global;
use tis_asm::Programs;
use tis_base::NoMemory;

// Whether a text is the canonical one of a network.
fn is_canonical(alloc: Global, text: &[u8], net: &Net) -> Result<bool, NoMemory>
    ensures { Gives (λ same. same) result (bytes_eq text.now (net_text (net_view net.now))) }
{
    let canonical = write_net(alloc, net)?;
    Ok(text == canonical.as_slice())
}

// The programs of a network that was read, where it keeps each rule and is one column.
fn programs_of(alloc: Global, net: &Net) -> Result<Programs, FormError>
    requires { IsSmallNet (net_view net.now) }
    ensures compiled { IfOk result (λ programs. programs ≡ compiled (net_view net.now)) }
    ensures form { IfOk result (λ programs. KeepsForm (net_view net.now)) }
    ensures sound { IfOk result (λ programs. (tile : ℕ) → IsSound (program_at programs.programs tile)) }
    ensures carries { IfOk result (λ programs. Carries programs (numbered (net_view net.now))) }
    ensures refused { result ≡ Err FormError.NotThisForm → KeepsForm (net_view net.now) → ⊥ }
{
    let checked = check(alloc, net)?;
    if !is_column(&checked) {
        return Err(FormError::NotThisForm);
    }
    Ok(emit(alloc, &checked)?)
}

/// The programs of the network that a text is: a text that is the canonical one of an accepted network of one column.
/// Any other text is refused.
pub fn compile(alloc: Global, text: &[u8]) -> Result<Programs, FormError>
    ensures compiled { IfOk result (λ programs. (net : SomeNet) × HasForm text.now net × (programs ≡ compiled net) × Carries programs (numbered net)) }
    ensures sound { IfOk result (λ programs. (tile : ℕ) → IsSound (program_at programs.programs tile)) }
    ensures refused { result ≡ Err FormError.NotThisForm → (net : SomeNet) → HasForm text.now net → ⊥ }
{
    let net = read_net(alloc, text)?;
    read_networks_are_small();
    if !is_canonical(alloc, text, &net)? {
        return Err(FormError::NotThisForm);
    }
    programs_of(alloc, &net)
}
