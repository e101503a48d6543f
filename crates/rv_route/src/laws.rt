//! Laws of routing, each the contract of a call that does nothing.
ghost use Rattle.rv_route.specs.Laws.{RoutedBeforeMore, RoutedByFiredLines, RoutedLast, RoutedByOwnText, RoutedLineByLine, RoutedRenumbered, RoutedWorksFit, WorksAreFromRules};

/// Lines are routed alike whatever follows their text, one more of them goes last, and a line is routed by its own text
/// as it is by a whole text that it stands in.
pub fn lines_are_routed_alike()
    ensures more { RoutedBeforeMore }
    ensures last { RoutedLast }
    ensures moved { RoutedByOwnText }
{}

/// Where lines are numbered upwards, routing them line after line comes to what the whole trace is routed to.
pub fn lines_make_the_whole()
    ensures { RoutedLineByLine }
{}

/// Each delivery of the works is to the monitor of one of the rules, with the rule's hit.
pub fn works_are_from_rules()
    ensures { WorksAreFromRules }
{}

/// What lines are routed to fits the monitors, where the rules do.
pub fn routed_works_fit()
    ensures { RoutedWorksFit }
{}

/// Lines on which no rule fires may be left out; and where the others have other numbers in the same order, what they are
/// routed to has these numbers, and is else the same.
pub fn fired_lines_are_enough()
    ensures fired { RoutedByFiredLines }
    ensures renumbered { RoutedRenumbered }
{}
