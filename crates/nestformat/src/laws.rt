// The laws of reading and writing, for the check to ask for: they quantify over every text and every problem.
ghost use Rattle.nestformat.specs.Laws.{Accepts, ReadsProblems, Refuses, ReadsBack, WrittenAlike, WholeProblems, AcceptsLines, EarliestFirst, ContentsCauses, RowCauses, NoOtherCause, ToldApart};

pub fn laws()
    ensures accepts { Accepts }
    ensures nothing_else { ReadsProblems }
    ensures refuses { Refuses }
    ensures told_apart { ToldApart }
    ensures reads_back { ReadsBack }
    ensures written_alike { WrittenAlike }
    ensures whole_problems { WholeProblems }
    ensures accepts_lines { AcceptsLines }
    ensures earliest_first { EarliestFirst }
    ensures contents_causes { ContentsCauses }
    ensures row_causes { RowCauses }
    ensures no_other_cause { NoOtherCause }
{}
