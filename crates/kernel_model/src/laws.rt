//! What ties the layout to the kernel that is read back. Each law is a function that does nothing, and its contract is the law.

ghost use Rattle.std.specs.Prelude.{◌≡◌, ℕ, ◌+◌, ◌*◌, ◌<◌, ◌≤◌, ◌⊎◌, List, length, slice_index, slice_set, All};
ghost use Rattle.kernel_model.specs.declared.map.TheConstants.{TABLES, TABLES_END};
ghost use Rattle.kernel_model.specs.Kernel.{Kernel};
ghost use Rattle.kernel_model.specs.Layout.{kernel_of, layout, tables, table_bytes, outside, empty, Fits, IsLaidOut, queue_of};
ghost use Rattle.kernel_model.specs.Queues.{QueuesHold, HasQueues};
ghost use Rattle.kernel_model.specs.Standing.{HasQueue};
ghost use Rattle.kernel_model.specs.Orderly.{IsOrderly};

/// A memory whose tables' bytes are a kernel's layout has that kernel, and is laid out.
pub fn layout_read_back()
    ensures kernel { (m : List ℕ) (k : Kernel) → Fits k → HasQueues k → table_bytes m ≡ layout k → kernel_of m ≡ k }
    ensures laid_out { (m : List ℕ) (k : Kernel) → Fits k → HasQueues k → table_bytes m ≡ layout k → IsLaidOut m }
{}

/// The tables' bytes of a laid-out memory are its kernel's layout.
pub fn laid_out_bytes()
    ensures { (m : List ℕ) → IsLaidOut m → table_bytes m ≡ layout (kernel_of m) }
{}

/// Two kernels that fit the tables and have the same layout are equal.
pub fn same_layout()
    ensures { (j k : Kernel) → Fits j → Fits k → HasQueues j → HasQueues k → layout j ≡ layout k → j ≡ k }
{}

/// The kernel of every memory fits the tables.
pub fn memory_fits()
    ensures { (m : List ℕ) → length m ≡ 65536 → All (λ b. b < 256) m → Fits (kernel_of m) }
{}

/// The layout of a memory's kernel is as many bytes as the tables have.
pub fn memory_kernel_bytes()
    ensures length { (k : Kernel) → Fits k → length (layout k) ≡ 3584 }
    ensures small { (m : List ℕ) → length m ≡ 65536 → All (λ b. b < 256) m → All (λ b. b < 256) (layout (kernel_of m)) }
{}

/// The two lists of a laid-out memory with an orderly kernel are laid out and in order.
pub fn orderly_queues()
    ensures { (m : List ℕ) → IsLaidOut m → IsOrderly (kernel_of m) → QueuesHold m }
{}

/// Two memories with the same bytes in the tables and elsewhere are equal.
pub fn same_memory()
    ensures { (m n : List ℕ) → length m ≡ 65536 → length n ≡ 65536 → table_bytes m ≡ table_bytes n → outside m ≡ outside n → m ≡ n }
{}

/// Two memories with the same bytes outside the tables have the same byte at each address there.
pub fn outside_bytes()
    ensures { (m n : List ℕ) → length m ≡ 65536 → length n ≡ 65536 → outside m ≡ outside n → (a : ℕ) → (a < TABLES) ⊎ (TABLES_END ≤ a) → slice_index m a ≡ slice_index n a }
{}

/// The empty kernel is orderly.
#[tactic(auto, using(crate::proofs::EmptyLemmas::empty_orderly))]
pub fn empty_is_orderly()
    ensures { IsOrderly empty }
{}

/// A byte written above the tables leaves them, and memories with the same tables have the same kernel.
pub fn tables_stay()
    ensures written { (m : List ℕ) (a v : ℕ) → TABLES_END ≤ a → tables (slice_set m a v) ≡ tables m }
    ensures kernel { (m n : List ℕ) → tables n ≡ tables m → kernel_of n ≡ kernel_of m }
{}

/// The first two words of the tables are the current limit and the current top.
pub fn limit_words()
    ensures limit { (m : List ℕ) (k : Kernel) → table_bytes m ≡ layout k → slice_index m 512 + 256 * slice_index m 513 ≡ k.cur_lim }
    ensures top { (m : List ℕ) (k : Kernel) → table_bytes m ≡ layout k → slice_index m 514 + 256 * slice_index m 515 ≡ k.cur_top }
{}

/// Where the two lists hold, each queue of the kernel stands in the memory's links.
pub fn queues_stand()
    ensures { (m : List ℕ) → length m ≡ 65536 → All (λ b. b < 256) m → QueuesHold m → (q : ℕ) → q < 9 → HasQueue m q (queue_of (kernel_of m).threads (kernel_of m).ready (kernel_of m).sleepers q) }
{}
