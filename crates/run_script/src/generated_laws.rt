//! What holds of each script that is made. The functions do nothing: their contracts are the laws.

ghost use Rattle.std.specs.Prelude.{◌≡◌, ℕ, ◌<◌, ◌≤◌, All, None, length};
ghost use Rattle.run_script.specs.Generated.{generated_record, generated_script};
ghost use Rattle.wal_spelling.specs.Refusal.{refusal_of};
ghost use Rattle.run_script.specs.Writable.{AsksWritable};

/// There are four backends with so many lines each.
pub fn four_backends_have_as_many_lines()
    ensures { (n : ℕ) → (length (generated_script n) ≡ 4)
        × All (λ lines. length lines ≡ n) (generated_script n) }
{}

/// Each record can be written.
pub fn generated_lines_are_writable()
    ensures { (n : ℕ) → n ≤ 100000
        → All (All (λ line. AsksWritable line.asked)) (generated_script n) }
{}
