//! Worked rows: examples worked out by hand from the rules of a pool, proved of the definitions.
ghost use Rattle.std.specs.Prelude.{[], ◌∷◌};
ghost use Rattle.std.specs.List.{All};
ghost use Rattle.bb8_ledger.specs.Rows.{IsRow, HandsOverLosing, HandsOverMissing, IsOvertaking, IsBackOff};
ghost use Rattle.bb8_ledger.specs.WorkedRows.{worked_rows, overtaken, closed_puts_last, passed_by_two, closed_keeps_place, asked_anew, asked_for_notified};

/// Worked rows, proved of the definitions alone; the function has no body. Of each row the step
/// table allows the result of each line, from the row's configuration and first numbers on, and the
/// final state has its statistics. The clauses `order` and `asked_for_all` are about hand-off:
/// which rows have it, how many positions closes cost there, and how many approvals were missed.
/// The last three give the waits of a back-off in nanoseconds, and how many of them end within the
/// timeout. The behaviour is bb8's, except as the list of differences says; the function is not in
/// bb8.
pub fn worked_rows()
    ensures rows { All IsRow worked_rows }
    ensures order { IsOvertaking overtaken × HandsOverLosing 0 closed_keeps_place
        × HandsOverLosing 1 closed_puts_last × HandsOverLosing 2 passed_by_two }
    ensures asked_for_all { HandsOverMissing 0 asked_anew × HandsOverMissing 2 asked_for_notified }
    ensures waits_of_one_second { IsBackOff 1_000_000_000
        (400_000_000 ∷ 500_000_000 ∷ 500_000_000 ∷ []) 2 }
    ensures waits_of_thirty_seconds { IsBackOff 30_000_000_000
        (400_000_000 ∷ 800_000_000 ∷ 1_600_000_000 ∷ 3_200_000_000 ∷ 6_400_000_000 ∷ 12_800_000_000
        ∷ 15_000_000_000 ∷ []) 6 }
    ensures waits_of_a_tenth_second { IsBackOff 100_000_000
        (50_000_000 ∷ 50_000_000 ∷ 50_000_000 ∷ []) 2 }
{}
