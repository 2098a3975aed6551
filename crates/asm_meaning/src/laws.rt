//! Laws of the meaning of terms and rules.
ghost use Rattle.std.specs.Prelude.{◌≡◌, ◌<◌, ◌≤◌, ◌+◌, ◌*◌, ◌++◌, ℕ, suc, Bool, true, false, cond, List, [], ◌∷◌, Option, Some, None, map, length, slice_get, slice_index_or};
ghost use Rattle.std.proofs.Common.{Box, Vec, Global};
ghost use Rattle.asm_state.specs.Location.{State};
ghost use Rattle.asm_state.specs.Signature.{Shape, domain_of};
ghost use Rattle.asm_state.specs.declared.function.Function.{Function};
ghost use Rattle.asm_state.specs.declared.function.FunctionKind.TheVariants as kind;
ghost use Rattle.asm_state.specs.declared.operation.Op.{Op};
ghost use Rattle.asm_state.specs.declared.value.Value.{Value};
ghost use Rattle.asm_state.specs.declared.value.Value.TheVariants.{Undef};
ghost use Rattle.asm_syntax.specs.PlainTree.{literal_value, plain_links, plain_term, plain_terms, plain_rule};
ghost use Rattle.asm_syntax.specs.SourceTree.{Spec};
ghost use Rattle.asm_syntax.specs.Tree as tree;
ghost use Rattle.asm_syntax.specs.Tree.{Name, Terms, Named as NamedTerm, Call};
ghost use Rattle.asm_syntax.specs.code.Views.{name_of, links_of, spec_of, term_of, terms_of, rule_of};
ghost use Rattle.asm_syntax.specs.declared.name.Name as syntax;
ghost use Rattle.asm_syntax.specs.declared.rule.Rule.{Rule};
ghost use Rattle.asm_syntax.specs.declared.term.Literal.{Literal};
ghost use Rattle.asm_syntax.specs.declared.term.Term.{Term};
ghost use Rattle.asm_syntax.specs.declared.term.Term.TheVariants as term;
ghost use Rattle.asm_check.specs.Faults.{IsWellFormed};
ghost use Rattle.asm_check.specs.Names as names;
ghost use Rattle.asm_check.specs.code.numbers.NumberTables.{IsInRange};
ghost use Rattle.asm_check.specs.Numbers.{derived_of, rules_of, declared_with_number, named};
ghost use Rattle.asm_check.specs.Ranks.{derived_rank, rule_rank};
ghost use Rattle.asm_check.specs.Shapes.{shape_of};
ghost use Rattle.asm_check.specs.declared.checked.Checked.{Checked};
ghost use Rattle.asm_check.specs.declared.checked.NameNumber.{NameNumber};
ghost use Rattle.asm_check.specs.declared.checked.NameNumber.TheVariants as number;
ghost use Rattle.asm_reader.specs.ScriptLines.{Script};
ghost use Rattle.asm_meaning.specs.Cases.{ScriptedByCases};
ghost use Rattle.asm_meaning.specs.Declarations.{ProgramDeclares, function_number, numbered, program_of, rule_number, universe_number};
ghost use Rattle.asm_meaning.specs.Does.{Outcome, Meaning, nothing, both, counted, parts, in_order, turns_of, each, one_of, does};
ghost use Rattle.asm_meaning.specs.ExhaustedLaws.{ExhaustedLaws};
ghost use Rattle.asm_meaning.specs.code.OutcomesBeside.{GroupingLaws, counting, all_both};
ghost use Rattle.asm_meaning.specs.InitialLaws.{InitialLaws};
ghost use Rattle.asm_meaning.specs.code.Intervals.{between};
ghost use Rattle.asm_meaning.specs.LawOfChoice.{ScriptedIsFree, FreeHasScript};
ghost use Rattle.asm_meaning.specs.code.MeantTrees.{text_of};
ghost use Rattle.asm_meaning.specs.code.NestedPaths.{Within, Behind, Nests, AllNest};
ghost use Rattle.asm_meaning.specs.Program.{Program, Environment, Controlled, Derived, NamedRule, bound_to, declared};
ghost use Rattle.asm_meaning.specs.Ranks.{AreDerivedRanked, IsRanked};
ghost use Rattle.asm_meaning.specs.Run.{FreeRuns, ScriptedRuns, Specification};
ghost use Rattle.asm_meaning.specs.Scripts.{UnrepeatedScript};
ghost use Rattle.asm_meaning.specs.SpecificationLaw.{SpecificationsAreRanked, SpecificationRunsAreFree, SpecificationRunsHaveScripts};
ghost use Rattle.asm_meaning.specs.code.BesideLaws.{BesideLaws, SplitLaws};
ghost use Rattle.asm_meaning.specs.Story.{Silent, tells};
ghost use Rattle.asm_meaning.specs.RunLaws.{RunLaws};
ghost use Rattle.asm_meaning.specs.StoryLaws.{AreToldAlike, AreToldOutcomes, StoryLaws, ToldByCases};
ghost use Rattle.asm_meaning.specs.Targets.{location_of};
ghost use Rattle.asm_meaning.specs.TermCases.{ValuedByCases};
ghost use Rattle.asm_meaning.specs.code.TreeWeights.{body_weight, in_body, link_of, named_weight, rules_in, term_weight};
ghost use Rattle.asm_meaning.specs.Value.{applied, inner, nesting, universe, value, values};
ghost use Rattle.asm_meaning.specs.code.TermValues.{declared_value, program};
ghost use Rattle.asm_meaning.specs.code.Weights.{TermWeightsFall, CallWeightsFall, rule_weight};
ghost use Rattle.asm_meaning.specs.Yields.{Path, Result, Exhausted, at, beside};

/// What a rule does under a script is what it may yield.
pub fn scripted_is_free()
    ensures { ScriptedIsFree }
{}

/// A script chooses as one without repeated lines does, which has the first line of each step and
/// path.
pub fn unrepeated_script()
    ensures { UnrepeatedScript }
{}

/// Whatever a rule may yield, it does so under some script without repeated lines.
pub fn free_has_script()
    ensures { FreeHasScript }
{}

/// The scripted function has one case for each rule.
pub fn scripted_by_cases()
    ensures { ScriptedByCases }
{}

/// The value of a term has one case for each form.
pub fn valued_by_cases()
    ensures { ValuedByCases }
{}

/// A program declares each name as what the name's number stands for.
pub fn program_declares()
    ensures { ProgramDeclares }
{}

/// A function without `initially` begins with nothing, one with a constant with that constant
/// everywhere, and one with entries with their values.
pub fn initial_laws()
    ensures { InitialLaws }
{}

/// Parts beside each other are exhausted if one of them is, at the least of their paths, which
/// is that of the first of them.
pub fn exhausted_laws()
    ensures { ExhaustedLaws }
{}

/// Outcomes of parts beside each other may be grouped and ordered as one likes.
pub fn beside_laws()
    ensures { BesideLaws }
{}

/// The parts of a `par`, and the elements of a `forall`, may be cut into intervals.
pub fn split_laws()
    ensures { SplitLaws }
{}

/// The weight of a term falls on the way of its evaluation.
pub fn term_weights_fall()
    ensures { TermWeightsFall }
{}

/// The weight of a rule falls on the way of its evaluation.
pub fn call_weights_fall()
    ensures { CallWeightsFall }
{}

/// A run under a script is a run for some choices.
pub fn scripted_runs()
    ensures { ScriptedRuns }
{}

/// Each run, for whatever choices, is the run under some script without repeated lines.
pub fn free_runs()
    ensures { FreeRuns }
{}

/// A specification without faults has all that the law of choice asks of a program and of its
/// rules, and all that the value of a term by cases asks of its derived functions.
pub fn specifications_are_ranked()
    ensures { SpecificationsAreRanked }
{}

/// The run of a specification without faults under a script is a run of it for some choices.
pub fn specification_runs_are_free()
    ensures { SpecificationRunsAreFree }
{}

/// Each run of a specification without faults, for whatever choices, is its run under some script
/// without repeated lines.
pub fn specification_runs_have_scripts()
    ensures { SpecificationRunsHaveScripts }
{}

/// An exhausted path lies within the path of its rule: of a descent, of parts from a number on, of
/// parts and turns one after the other, of elements, and of what a `choose` takes. So of what is
/// beside each other the first that is exhausted has the least path.
pub fn nested_paths()
    ensures behind_is_within { (p : Path) (k : ℕ) (r : Result) → Behind p k r → Within p r }
    ensures descent_is_within { (p : Path) (k : ℕ) (r : Result) → Within (at p k) r → Within p r }
    ensures parts { (ms : List Meaning) → AllNest ms → (k : ℕ) (A : State) (e : Environment) (p : Path) → Behind p k (parts ms k A e p).result }
    ensures in_order { (ms : List Meaning) → AllNest ms → (k : ℕ) (A : State) (e : Environment) (p : Path) → Within p (in_order ms k A e p).result }
    ensures turns { (m : Meaning) → Nests m → (left t : ℕ) (A : State) (e : Environment) (p : Path) → Within p (turns_of m left t A e p).result }
    ensures elements { (p : Path) (m : Value → ℕ → Outcome) (test : Value → Bool) → ((v : Value) (k : ℕ) → Within (at p k) (m v k).result) →
        (k : ℕ) (vs : List Value) → Behind p k (each m test k vs).result }
    ensures one_of { (p : Path) (n : ℕ) (vs : List Value) (m : Value → Outcome) (other : Outcome) → ((v : Value) → Within p (m v).result) →
        Within p other.result → Within p (one_of n vs m other).result }
    ensures first { (p : Path) (k : ℕ) (q : Path) (r s : Result) → Within (at p k) r → Behind p (suc k) s → r ≡ Exhausted q → beside r s ≡ Exhausted q }
{}

/// Outcomes beside each other are made of each of them; of none, one, and two lists one after the
/// other.
pub fn grouping_laws()
    ensures { GroupingLaws }
{}

/// One more outcome beside those so far, one alone, and none.
pub fn group_laws<X: Drop>()
    ensures counting_none { (o : Outcome) → counting 0 o ≡ o }
    ensures more { (f : X → Outcome) (xs ys : List X) (x : X) (rest : Outcome) → ys ≡ xs ++ x ∷ [] →
        both (all_both (map f ys)) rest ≡ both (all_both (map f xs)) (both (f x) rest) }
    ensures one { (f : X → Outcome) (xs ys : List X) (x : X) → xs ≡ [] → ys ≡ xs ++ x ∷ [] → f x ≡ counting 0 (all_both (map f ys)) }
    ensures none { (f : X → Outcome) (xs : List X) → xs ≡ [] → nothing ≡ counting 0 (all_both (map f xs)) }
{}

/// The elements at an interval of positions: all, the first one and those after it, none, and an
/// interval cut in two.
pub fn interval_laws()
    ensures all { (vs : List Value) → between 0 (length vs) vs ≡ vs }
    ensures next { (m : Value → ℕ → Outcome) (test : Value → Bool) (from to : ℕ) (vs : List Value) (v : Value) (b : Bool) → from < to →
        slice_get vs from ≡ Some v → b ≡ test v →
        cond b (counted (both (m v from) (each m test (from + 1) (between (from + 1) to vs)))) (each m test (from + 1) (between (from + 1) to vs))
        ≡ each m test from (between from to vs) }
    ensures none { (m : Value → ℕ → Outcome) (test : Value → Bool) (from to : ℕ) (vs : List Value) → to ≤ from →
        each m test from (between from to vs) ≡ nothing }
    ensures cut { (a b c : ℕ) (vs : List Value) → a ≤ b → b ≤ c → c ≤ length vs → (m : Value → ℕ → Outcome) (test : Value → Bool) →
        both (each m test a (between a b vs)) (each m test b (between b c vs)) ≡ each m test a (between a c vs) }
{}

/// The elements of an interval, some with an outcome by now: at the beginning, after one for which
/// the condition holds, after another, and at the end.
pub fn body_laws<X: Drop>()
    ensures begin { (f : X → Outcome) (m : Value → ℕ → Outcome) (test : Value → Bool) (to : ℕ) (vs : List Value) (from : ℕ) (xs : List X) → xs ≡ [] →
        both (counting 0 (all_both (map f xs))) (each m test from (between from to vs)) ≡ each m test from (between from to vs) }
    ensures counted { (f : X → Outcome) (m : Value → ℕ → Outcome) (test : Value → Bool) (to : ℕ) (vs : List Value) (i n k : ℕ) (xs ys : List X) (x : X) (v : Value) (whole : Outcome) →
        i < to → slice_get vs i ≡ Some v → true ≡ test v → k ≡ n + 1 → ys ≡ xs ++ x ∷ [] → f x ≡ m v i →
        both (counting n (all_both (map f xs))) (each m test i (between i to vs)) ≡ whole →
        both (counting k (all_both (map f ys))) (each m test (i + 1) (between (i + 1) to vs)) ≡ whole }
    ensures passed { (f : X → Outcome) (m : Value → ℕ → Outcome) (test : Value → Bool) (to : ℕ) (vs : List Value) (i n k : ℕ) (xs ys : List X) (v : Value) (whole : Outcome) →
        i < to → slice_get vs i ≡ Some v → false ≡ test v → k ≡ n → ys ≡ xs →
        both (counting n (all_both (map f xs))) (each m test i (between i to vs)) ≡ whole →
        both (counting k (all_both (map f ys))) (each m test (i + 1) (between (i + 1) to vs)) ≡ whole }
    ensures end { (f : X → Outcome) (m : Value → ℕ → Outcome) (test : Value → Bool) (to : ℕ) (vs : List Value) (i n : ℕ) (xs : List X) (whole : Outcome) → to ≤ i →
        both (counting n (all_both (map f xs))) (each m test i (between i to vs)) ≡ whole → whole ≡ counting n (all_both (map f xs)) }
{}

/// What a name's number stands for: elements and functions that are in range, derived functions and
/// rules with the code's parameters and bodies, and what has no value.
pub fn numbered_names()
    ensures element { (spec : Spec) (it : Option NameNumber) (e : ℕ) → IsWellFormed spec → IsInRange spec it → it ≡ Some (number.Element e) → e < 262_144 }
    ensures function { (spec : Spec) (shape : Shape) (it : Option NameNumber) (f : ℕ) → IsWellFormed spec → shape ≡ shape_of spec → IsInRange spec it →
        it ≡ Some (number.Function f) → f < length shape.functions }
    ensures derived { (spec : Spec) (it : Option NameNumber) (d : ℕ) (xs : List syntax.Name) (t : Term) → it ≡ Some (number.Derived d) →
        declared_with_number (derived_of spec) d ≡ Some (names.Derived (map name_of xs) (term_of t)) →
        numbered spec it ≡ Some (Derived (map text_of xs) (plain_term (term_of t))) }
    ensures rule { (spec : Spec) (it : Option NameNumber) (r : ℕ) (xs : List syntax.Name) (R : Rule) → it ≡ Some (number.Rule r) →
        declared_with_number (rules_of spec) r ≡ Some (names.NamedRule (map name_of xs) (rule_of R)) →
        numbered spec it ≡ Some (NamedRule (map text_of xs) (plain_rule (rule_of R))) }
    ensures universe_undef { (program : Program) (A : State) (vs : List Value) (spec : Spec) (n : ℕ) →
        Undef ≡ declared_value program A (numbered spec (Some (number.Universe n))) vs }
    ensures rule_undef { (program : Program) (A : State) (vs : List Value) (spec : Spec) (r : ℕ) →
        Undef ≡ declared_value program A (numbered spec (Some (number.Rule r))) vs }
{}

/// The universe that a name stands for, by its number.
pub fn universe_names()
    ensures some { (spec : Spec) (x : Name) (n : ℕ) (vs : List Value) → universe_number (named spec x) ≡ Some n →
        slice_get (shape_of spec).universes n ≡ Some vs → universe (program_of spec) x ≡ vs }
    ensures none { (spec : Spec) (x : Name) → universe_number (named spec x) ≡ None → universe (program_of spec) x ≡ [] }
    ensures in_range { (spec : Spec) (it : Option NameNumber) (n : ℕ) → IsWellFormed spec → IsInRange spec it → universe_number it ≡ Some n →
        n < length (shape_of spec).universes }
{}

/// The controlled function that a name stands for, by its number. Static functions and other names
/// have no location.
pub fn target_names()
    ensures controlled { (spec : Spec) (x : Name) (shape : Shape) → shape ≡ shape_of spec → (f : ℕ) (it : Function) → Some (number.Function f) ≡ named spec x →
        slice_get shape.functions f ≡ Some it → it.kind ≡ kind.Controlled → declared (program_of spec) x ≡ Some (Controlled f (domain_of shape f)) }
    ensures of_static { (spec : Spec) (x : Name) (shape : Shape) → shape ≡ shape_of spec → (f : ℕ) (it : Function) → Some (number.Function f) ≡ named spec x →
        slice_get shape.functions f ≡ Some it → it.kind ≡ kind.Static → (vs : List Value) → location_of (declared (program_of spec) x) vs ≡ None }
    ensures other { (spec : Spec) (x : Name) (it : Option NameNumber) → it ≡ named spec x → function_number it ≡ None → (vs : List Value) →
        location_of (declared (program_of spec) x) vs ≡ None }
{}

/// A call of a name that stands for no rule does nothing.
pub fn called_names()
    ensures { (spec : Spec) (turns : ℕ) (script : Script) (step : ℕ) (A : State) (e : Environment) (p : Path) (to : Option (Name × Terms)) (f : Name) (ts : Terms) (it : Option NameNumber) →
        it ≡ named spec f → rule_number it ≡ None → nothing ≡ does (program_of spec) turns script step A e p (Call to f ts) }
{}

/// A name that isn't bound has the value of what it is declared as.
pub fn unbound_names()
    ensures { (program : Program) (A : State) (e : Environment) (x : Name) (ts : Terms) → bound_to e x ≡ None →
        value program A e (NamedTerm x ts) ≡ applied program (inner program) (declared program x) (values program A e ts) A }
{}

/// The ranks of the derived functions and of the rules of a specification without faults.
pub fn declared_ranks()
    ensures derived { (spec : Spec) → IsWellFormed spec → AreDerivedRanked (program_of spec) (derived_rank spec) }
    ensures derived_low { (spec : Spec) (x : Name) → IsWellFormed spec → derived_rank spec x < nesting }
    ensures rules { (spec : Spec) → IsWellFormed spec → IsRanked (program_of spec) (rule_rank spec) }
    ensures rule_low { (spec : Spec) (x : Name) → IsWellFormed spec → rule_rank spec x < nesting }
{}

/// The plain term of each form of a term of the code.
pub fn plain_terms()
    ensures constant { (t : Term) (l : Literal) → t ≡ term.Constant l → plain_term (term_of t) ≡ tree.Constant (literal_value l) }
    ensures named { (t : Term) (x : syntax.Name) (ts : Vec Term Global) → t ≡ term.Named x ts → plain_term (term_of t) ≡ NamedTerm x.text (plain_terms (terms_of (map term_of ts.items))) }
    ensures chain { (t : Term) (first : Box Term Global) (rest : Vec (Op × Term) Global) → t ≡ term.Chain first rest →
        plain_term (term_of t) ≡ tree.Chain (plain_term (term_of first.value)) (plain_links (links_of (map link_of rest.items))) }
    ensures of_not { (t : Term) (inner : Box Term Global) → t ≡ term.Not inner → plain_term (term_of t) ≡ tree.Not (plain_term (term_of inner.value)) }
    ensures negative { (t : Term) (inner : Box Term Global) → t ≡ term.Negative inner → plain_term (term_of t) ≡ tree.Negative (plain_term (term_of inner.value)) }
    ensures exists { (t : Term) (x over : syntax.Name) (test : Box Term Global) → t ≡ term.Exists x over test →
        plain_term (term_of t) ≡ tree.Exists x.text over.text (plain_term (term_of test.value)) }
    ensures every { (t : Term) (x over : syntax.Name) (test : Box Term Global) → t ≡ term.Every x over test →
        plain_term (term_of t) ≡ tree.Every x.text over.text (plain_term (term_of test.value)) }
    ensures answer { (t : Term) (x : syntax.Name) → t ≡ term.Result x → plain_term (term_of t) ≡ NamedTerm x.text tree.no_terms }
{}

/// What falls on the way of a recursion over the code's tree: at the operand of a `not` and of a
/// sign, at an argument, at the body of what a name stands for, and at the body of a rule that is
/// called. How many rules a rule is made of is its weight.
pub fn tree_weights()
    ensures of_not { (checked : Checked) (e : Environment) (t : Term) (inner : Box Term Global) → t ≡ term.Not inner → (u : Term) → u ≡ inner.value →
        term_weight (program checked) e u < term_weight (program checked) e t }
    ensures negative { (checked : Checked) (e : Environment) (t : Term) (inner : Box Term Global) → t ≡ term.Negative inner → (u : Term) → u ≡ inner.value →
        term_weight (program checked) e u < term_weight (program checked) e t }
    ensures argument { (checked : Checked) (e : Environment) (x : Name) (ts : List Term) (i : ℕ) (t : Term) → i < length ts → t ≡ slice_index_or ts i t →
        term_weight (program checked) e t < named_weight (program checked) e x ts }
    ensures body { (checked : Checked) (e : Environment) (x : Name) (ts : List Term) (it : Option NameNumber) (vs : List Value) → bound_to e x ≡ None →
        it ≡ named (spec_of checked.spec) x →
        body_weight (program checked) (numbered (spec_of checked.spec) it) vs < 4 * named_weight (program checked) e x ts + 1 }
    ensures call { (checked : Checked) (to : Option (Name × Terms)) (f : Name) (ts : Terms) (r : ℕ) (xs : List syntax.Name) (R : Rule) →
        named (spec_of checked.spec) f ≡ Some (number.Rule r) →
        declared_with_number (rules_of (spec_of checked.spec)) r ≡ Some (names.NamedRule (map name_of xs) (rule_of R)) →
        rules_in (in_body checked) (plain_rule (rule_of R)) < rules_in (in_body checked) (Call to f ts) }
    ensures rule { (checked : Checked) (R : tree.Rule) → rules_in (in_body checked) R ≡ rule_weight (program checked) R }
{}

/// The story of a rule yields what the rule does.
pub fn told_outcomes()
    ensures { AreToldOutcomes }
{}

/// What is told of parts, elements, candidates and turns yields what they do.
pub fn story_laws()
    ensures { StoryLaws }
{}

/// The story of a rule is told by the stories of its parts, if ranks fall with each call.
pub fn told_by_cases()
    ensures { ToldByCases }
{}

/// Who picks, at the path of each choice of a rule's story, the candidate that is taken there, has
/// the rule tell just that story, whatever is picked elsewhere.
pub fn told_alike()
    ensures { AreToldAlike }
{}

/// A call of a name that stands for no rule tells nothing.
pub fn untold_names()
    ensures { (spec : Spec) (turns : ℕ) (script : Script) (step : ℕ) (A : State) (e : Environment) (p : Path) (to : Option (Name × Terms)) (f : Name) (ts : Terms) (it : Option NameNumber) →
        it ≡ named spec f → rule_number it ≡ None → Silent ≡ tells (program_of spec) turns script step A e p (Call to f ts) }
{}

/// After one step more a run is in the state that this step leads to. A step that is exhausted, or
/// whose set is faulty, ends each run of more steps.
pub fn run_laws()
    ensures { (specification : Specification) (turns : ℕ) (script : Script) → RunLaws specification turns script }
{}
