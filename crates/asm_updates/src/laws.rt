//! Laws of summaries, of unions, and of lists of entries.
ghost use Rattle.asm_updates.specs.code.EntryLists.{OrderFree, EntryListLaws};
ghost use Rattle.asm_updates.specs.code.StandingLaws.{StandingLaws};
ghost use Rattle.asm_updates.specs.code.UnitedLaws.{UnitedLaws};

/// Which sets a summary stands for is said by its entries alone.
pub fn standing_laws()
    ensures { StandingLaws }
{}

/// The union of many sets is that of its parts, in any order.
pub fn united_laws()
    ensures { UnitedLaws }
{}

/// The summary of a list of entries is that of each rearrangement of it.
pub fn order_free()
    ensures { OrderFree }
{}

/// Two lists of entries have the union of their summaries, the entries of a summary have that
/// summary, and the summary of a list stands for the updates of its entries.
pub fn entry_list_laws()
    ensures { EntryListLaws }
{}
