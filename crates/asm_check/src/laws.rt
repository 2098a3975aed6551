//! Laws of faults, and what a specification without faults has.
ghost use Rattle.asm_check.specs.BoundLaws.{BoundLaws};
ghost use Rattle.asm_check.specs.Laws.{LeastIsOnly, LeastExists, RanksExist, NamesAreApart, ItemsAreDeclared, BodiesAreFit, NumberedBodiesAreFit, TermFaultsAreFaults, TermsAreFit, ScopesByMembers, TermsAreCounted, LimitsHold, NumberedDomainsAreFew, SignatureFits, ShapeIsSound, SignatureNumbers, NamesHaveNumbers, NamedInRange, TextsAreTold};

/// A specification has at most one least fault.
pub fn least_is_only()
    ensures { LeastIsOnly }
{}

/// A specification is well formed, or it has a least fault.
pub fn least_exists()
    ensures { LeastExists }
{}

/// A well-formed specification has ranks, which fall with each call of a rule and each use of a
/// derived function.
pub fn ranks_exist()
    ensures { RanksExist }
{}

/// In a well-formed specification no name is declared twice, and no rule or derived
/// function has a parameter twice.
pub fn names_are_apart()
    ensures { NamesAreApart }
{}

/// In a well-formed specification each name is declared as its item says.
pub fn items_are_declared()
    ensures { ItemsAreDeclared }
{}

/// In a well-formed specification each name stands for what its use asks for, with as many
/// arguments as that has.
pub fn bodies_are_fit()
    ensures { BodiesAreFit }
{}

/// In a well-formed specification so it is in each rule and each derived function, by its number.
pub fn numbered_bodies_are_fit()
    ensures { NumberedBodiesAreFit }
{}

/// Each fault of a term that is the body of a derived function without parameters is one of the
/// specification.
pub fn term_faults_are_faults()
    ensures { TermFaultsAreFaults }
{}

/// In a term without faults each name stands for what its use asks for, with as many arguments as
/// that has.
pub fn terms_are_fit()
    ensures { TermsAreFit }
{}

/// Which names are bound decides whether a term or a rule is fit, and not their order.
pub fn scopes_by_members()
    ensures { ScopesByMembers }
{}

/// A name has as many arguments as the code's tree has terms after it.
pub fn terms_are_counted()
    ensures { TermsAreCounted }
{}

/// A well-formed specification passes no limit.
pub fn limits_hold()
    ensures { LimitsHold }
{}

/// No function of a well-formed specification has too many universes.
pub fn numbered_domains_are_few()
    ensures { NumberedDomainsAreFew }
{}

/// What a well-formed specification declares fits into a signature.
pub fn signature_fits()
    ensures { SignatureFits }
{}

/// No universe of a well-formed specification has a value twice.
pub fn shape_is_sound()
    ensures { ShapeIsSound }
{}

/// Universes, functions and elements have the numbers in the signature that
/// they have among the declarations.
pub fn signature_numbers()
    ensures { SignatureNumbers }
{}

/// The number of a name leads to what the name is declared as.
pub fn names_have_numbers()
    ensures { NamesHaveNumbers }
{}

/// The number that a name stands for is below the count of its like.
pub fn named_in_range()
    ensures { NamedInRange }
{}

/// Two names are the same if and only if the test of their texts passes.
pub fn texts_are_told()
    ensures { TextsAreTold }
{}

/// How many rules there can be, and the greatest rank.
pub fn bound_laws()
    ensures { BoundLaws }
{}
