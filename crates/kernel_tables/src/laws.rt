//! What holds of every memory's tables. Each law is a function that does nothing, and its contract is the law.

ghost use Rattle.std.specs.Prelude.{◌≡◌};
ghost use Rattle.kernel_model.specs.Layout.{kernel_of, layout, table_bytes, Fits, IsLaidOut};
ghost use Rattle.kernel_model.specs.Queues.{QueuesHold};
ghost use Rattle.kernel_model.specs.Orderly.{IsOrderly};

use flat_mem::FlatMem;

/// The two lists of a laid-out memory with an orderly kernel are laid out and in order.
#[tactic(auto, using(kernel_model::proofs::OrderlyLemmas::queues_from_orderly))]
pub fn orderly_queues_hold(m: &FlatMem)
    requires laid_out { IsLaidOut m.now }
    requires orderly { IsOrderly (kernel_of m.now) }
    ensures { QueuesHold m.now }
{
    let _ = m;
}

/// The kernel of every memory fits the tables.
pub fn kernel_fits(m: &FlatMem)
    ensures { Fits (kernel_of m.now) }
{
    m.is_flat();
}

/// The tables' bytes of a laid-out memory are its kernel's layout.
#[tactic(auto, using(kernel_model::proofs::LayoutLemmas::layout_from_laid_out))]
pub fn laid_out_bytes(m: &FlatMem)
    requires { IsLaidOut m.now }
    ensures { table_bytes m.now ≡ layout (kernel_of m.now) }
{
    let _ = m;
}
