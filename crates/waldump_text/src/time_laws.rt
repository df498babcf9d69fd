ghost use Rattle.std.specs.Prelude.{◌≡◌, ℕ, ◌+◌, ◌≤◌};
ghost use Rattle.waldump_text.specs.Calendar.{dated_days, days_after, days_before, days_from_2000, days_to_2000, first_day, first_day_of_2000, first_day_of_9999};

/// A law: the years 1 to 9998 lie about 2000-01-01 as the definition of a date takes them to; and
/// in these, to count days forth undoes what it is to count them back.
pub fn days_are_counted_from_2000()
    ensures first { days_before days_to_2000 first_day_of_2000 ≡ first_day }
    ensures end { days_after days_from_2000 first_day_of_2000 ≡ first_day_of_9999 }
    ensures undone { (count upto : ℕ) → count + upto ≤ dated_days
        → days_before count (days_after (count + upto) first_day) ≡ days_after upto first_day }
{}
