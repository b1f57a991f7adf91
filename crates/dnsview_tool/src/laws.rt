//! Theorems on pages. The functions do nothing: the contract of each is a theorem.
ghost use Rattle.dnsview_tool.specs.Failures.{UnopenedIsPrintable};
ghost use Rattle.dnsview_tool.specs.Heads.{ColoursAreNamed, ColoursHaveRules, HeadsAreSelfContained, PartsHaveRules};
ghost use Rattle.dnsview_tool.specs.Viewing.{ArgumentsArePrintable, TextsArePrintable};
ghost use Rattle.dnsview_tool.specs.Links.{IdsAreUnique, JoinedRowsKeepOctets, JoinedRowsTile, LinesHaveRows, WordsAreBounded};

/// The `id`s of a page of consecutive rows are all different: a row's cells and its line in the
/// list each have their own. So each link leads to one element.
pub fn page_ids_are_unique()
    ensures { IdsAreUnique }
{}

/// The lines of a page have all of its rows, in order. The rows show the same octets if those that
/// share a line are one row. Consecutive rows stay consecutive.
pub fn joined_rows_are_all()
    ensures rows { LinesHaveRows }
    ensures octets { JoinedRowsKeepOctets }
    ensures tiles { JoinedRowsTile }
{}

/// The words for a row of a brief page, after the header section, take at most 27 octets and
/// nine for each octet of the row, or 60.
pub fn words_are_bounded()
    ensures { WordsAreBounded }
{}

/// What `dnsview` prints besides a message is lines of printable ASCII: the help, the version, the
/// usage, and the lines that name a wrong argument or a file that can't be opened, whatever octets
/// these have.
pub fn words_are_printable()
    ensures texts { TextsArePrintable }
    ensures arguments { ArgumentsArePrintable }
    ensures unopened { UnopenedIsPrintable }
{}

/// The fixed texts of a page, with its style, have no script and refer to no other file. All other
/// texts of a page are escaped, so they are never markup.
pub fn page_heads_are_self_contained()
    ensures { HeadsAreSelfContained }
{}

/// The style of a page has a rule for each class that the page uses, and the legend names the
/// colour of each row.
pub fn page_classes_have_rules()
    ensures colours { ColoursHaveRules }
    ensures parts { PartsHaveRules }
    ensures legend { ColoursAreNamed }
{}
