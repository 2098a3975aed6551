//! Laws of how outcomes are formed, of pieces of rules, and of parts of sound codes.
ghost use Rattle.std.specs.Prelude.{◌≡◌, ◌≢◌, ◌⊎◌, ◌<◌, ◌≤◌, ◌+◌, ◌%◌, ℕ, min, Bool, true, false, List, Some, None, Result as Returned, Ok, Err, filter, take, length, map, get_or, slice_get, OnOk, IfErr, IsErrAnd};
ghost use Rattle.std.proofs.Common.{Box, Vec, Global};
ghost use Rattle.std.specs.declared.sync.Arc.{Arc};
ghost use Rattle.asm_state.specs.Signature.{Shape, count_of};
ghost use Rattle.asm_state.specs.declared.operation.Op.{Op};
ghost use Rattle.asm_code.specs.code.CodeViews.{code_of, codes_of};
ghost use Rattle.asm_code.specs.code.RuleMeaning.{IsSoundRule, rule_size};
ghost use Rattle.asm_code.specs.code.RuleViews.{rule_of};
ghost use Rattle.asm_code.specs.code.Sizes.{size};
ghost use Rattle.asm_code.specs.code.SoundCodes.{AreSound, IsSound};
ghost use Rattle.asm_code.specs.declared.code.Code.{Code};
ghost use Rattle.asm_code.specs.declared.code.Code.TheVariants as code;
ghost use Rattle.asm_code.specs.declared.rule_code.RuleCode.{RuleCode};
ghost use Rattle.asm_code.specs.declared.rule_code.RuleCode.TheVariants as rule;
ghost use Rattle.asm_eval.specs.code.OpenedPieces.{OpeningLaws};
ghost use Rattle.asm_eval.specs.declared.evaluation.Evaluation.{Evaluation};
ghost use Rattle.asm_state.specs.Updates.{UpdateSet, IsConsistent, none, merge};
ghost use Rattle.asm_state.specs.declared.value.Value.{Value};
ghost use Rattle.asm_updates.specs.code.SummaryRanges.{SummaryRanges};
ghost use Rattle.asm_updates.specs.code.Stands.{Stands};
ghost use Rattle.asm_meaning.specs.Does.{Outcome, nothing, both, counted, one_of, following, part_and, turn_and};
ghost use Rattle.asm_meaning.specs.Taken.{taken};
ghost use Rattle.asm_meaning.specs.Yields.{Path, Gives, Exhausted};
ghost use Rattle.asm_eval.specs.code.FormedOutcomes.{Forms, Follows, IsMergedPart, IsSet, IsStoppedAt, greatest_count};
ghost use Rattle.asm_eval.specs.code.FoundCandidates.{found_candidate};
ghost use Rattle.asm_eval.specs.code.PartSets.{IsPartSet, ends_parts, ends_turns};
ghost use Rattle.asm_eval.specs.declared.outcome.Forming.{Forming};
ghost use Rattle.asm_eval.specs.declared.found_candidate.FoundCandidate.TheVariants.{At, TooFew};
ghost use Rattle.asm_eval.specs.declared.part_set.PartSet.{PartSet};
ghost use Rattle.asm_eval.specs.declared.stopped.Stopped.{Stopped};
ghost use Rattle.asm_eval.specs.declared.stopped.Stopped.TheVariants.{Memory};

use asm_reader::Picks;

/// Opening a piece by a cut that isn't 0 loses nothing: the pieces that it is opened to yield
/// together what it yields, with the elements that were counted in opening it, and no span has more
/// positions than the cut. A piece is closed if its rule is. And a piece is opened in one way:
/// two results of opening it have the same works in the same order, and count as many elements.
pub fn opening_laws<P: Picks>()
    ensures { (evaluation : Evaluation P P.Picks) → OpeningLaws evaluation }
{}

/// Each of some sound codes is sound. The arguments of a sound term, the operands of a sound chain,
/// and the parts of a sound `par` and `seq` are sound, and smaller than the whole.
pub fn member_laws()
    ensures codes { (shape : Shape) (ts : List Code) (i : ℕ) (t : Code) → i < length ts → t ≡ get_or ts i t → AreSound shape (codes_of (map code_of ts)) → IsSound shape (code_of t) }
    ensures held { (shape : Shape) (t : Code) → IsSound shape (code_of t) → (f : ℕ) (ts : Vec Code Global) → t ≡ code.FunctionAt f ts → (us : List Code) → us ≡ ts.items →
        (i : ℕ) (u : Code) → i < length us → u ≡ get_or us i u → (size (code_of u) < size (code_of t)) × IsSound shape (code_of u) }
    ensures derived { (shape : Shape) (t : Code) → IsSound shape (code_of t) → (body : Arc Code Global) (ts : Vec Code Global) → t ≡ code.Derived body ts → (us : List Code) → us ≡ ts.items →
        (i : ℕ) (u : Code) → i < length us → u ≡ get_or us i u → (size (code_of u) < size (code_of t)) × IsSound shape (code_of u) }
    ensures chain { (shape : Shape) (t : Code) → IsSound shape (code_of t) → (first : Box Code Global) (rest : Vec (Op × Code) Global) → t ≡ code.Chain first rest →
        (links : List (Op × Code)) → links ≡ rest.items → (i : ℕ) (l : Op × Code) → i < length links → l ≡ get_or links i l → (size (code_of l.1) < size (code_of t)) × IsSound shape (code_of l.1) }
    ensures par { (shape : Shape) (P : RuleCode) → IsSoundRule shape (rule_of P) → (Ps : Vec RuleCode Global) → P ≡ rule.Par Ps → (Qs : List RuleCode) → Qs ≡ Ps.items →
        (i : ℕ) (Q : RuleCode) → i < length Qs → Q ≡ get_or Qs i Q → (rule_size (rule_of Q) < rule_size (rule_of P)) × IsSoundRule shape (rule_of Q) }
    ensures seq { (shape : Shape) (P : RuleCode) → IsSoundRule shape (rule_of P) → (Ps : Vec RuleCode Global) → P ≡ rule.Seq Ps → (Qs : List RuleCode) → Qs ≡ Ps.items →
        (i : ℕ) (Q : RuleCode) → i < length Qs → Q ≡ get_or Qs i Q → (rule_size (rule_of Q) < rule_size (rule_of P)) × IsSoundRule shape (rule_of Q) }
{}

/// A walk along candidates: one more that passes the test and one that doesn't, where it ends, the
/// candidate that is taken, and what is done with it.
pub fn candidate_laws()
    ensures one_more { (p : Value → Bool) (vs : List Value) (i : ℕ) (v : Value) (n : ℕ) → slice_get vs i ≡ Some v → p v ≡ true →
        n ≡ length (filter p (take i vs)) → n + 1 ≡ length (filter p (take (i + 1) vs)) }
    ensures none_more { (p : Value → Bool) (vs : List Value) (i : ℕ) (v : Value) (n : ℕ) → slice_get vs i ≡ Some v → p v ≡ false →
        n ≡ length (filter p (take i vs)) → n ≡ length (filter p (take (i + 1) vs)) }
    ensures met { (p : Value → Bool) (vs : List Value) (i : ℕ) (v : Value) (n : ℕ) → slice_get vs i ≡ Some v → p v ≡ true →
        n ≡ length (filter p (take i vs)) → At v ≡ found_candidate n (filter p vs) }
    ensures passed { (p : Value → Bool) (vs : List Value) (i n k : ℕ) → length vs ≤ i → n ≡ length (filter p (take i vs)) → n ≤ k →
        TooFew n ≡ found_candidate k (filter p vs) }
    ensures taken { (k : ℕ) (vs : List Value) (v : Value) → At v ≡ found_candidate k vs → Some v ≡ taken k vs }
    ensures taken_again { (k n : ℕ) (vs : List Value) (v : Value) → TooFew n ≡ found_candidate k vs → At v ≡ found_candidate (k % n) vs → Some v ≡ taken k vs }
    ensures some { (n : ℕ) (vs : List Value) (v : Value) (m : Value → Outcome) (other : Outcome) → Some v ≡ taken n vs → m v ≡ one_of n vs m other }
    ensures none { (n : ℕ) (vs : List Value) (m : Value → Outcome) (other : Outcome) → None ≡ taken n vs → other ≡ one_of n vs m other }
{}

/// What a call promises that forms an outcome: of an equal outcome, of nothing, of two parts, with
/// an instance that is counted first, and if an error is handed on.
pub fn following_laws<S: Drop, T: Drop>()
    ensures forms_same { (shape : Shape) (o q : Outcome) (old new : SummaryRanges) (before after : ℕ) → o ≡ q →
        Forms shape o old new before after → Forms shape q old new before after }
    ensures stopped_with { (o q : Outcome) (p : Path) (stop : Stopped) → ((at : Path) → o.result ≡ Exhausted at → q.result ≡ Exhausted at) →
        IsStoppedAt o p stop → IsStoppedAt q p stop }
    ensures same { (shape : Shape) (r : Returned T Stopped) (o q : Outcome) (old new : Forming) → o ≡ q → Follows shape o old new r → Follows shape q old new r }
    ensures nothing { (shape : Shape) (x : T) (o : Outcome) (made : Forming) → nothing ≡ o → Follows {T = T} shape o made made (Ok x) }
    ensures both { (shape : Shape) (x : S) (r : Returned T Stopped) (o q : Outcome) (old mid new : Forming) → Follows {T = S} shape o old mid (Ok x) →
        Follows shape q mid new r → Follows shape (both o q) old new r }
    ensures counted { (shape : Shape) (r : Returned T Stopped) (o : Outcome) (old mid new : Forming) → mid.set ≡ old.set → mid.path.items ≡ old.path.items →
        mid.instances ≡ min (old.instances + 1) greatest_count → Follows shape o mid new r → Follows shape (counted o) old new r }
    ensures stopped { (shape : Shape) (given : Returned S Stopped) (returned : Returned T Stopped) (stop : Stopped) (o q : Outcome) (old mid new : Forming) →
        mid.set.count ≡ old.set.count → given ≡ Err stop → IsErrAnd returned (λ again. again ≡ stop) →
        ((p : Path) → o.result ≡ Exhausted p → q.result ≡ Exhausted p) → Follows shape o mid new given → Follows shape q old new returned }
{}

/// What has been formed from nothing is an outcome's set with its instances, or the path where it
/// is exhausted.
pub fn from_nothing_laws<T: Drop>()
    ensures formed { (shape : Shape) (o : Outcome) (old new : SummaryRanges) (before after : ℕ) → Stands shape old none → before ≡ 0 → new.count ≡ count_of shape →
        Forms shape o old new before after → IsSet shape o new after }
    ensures set { (shape : Shape) (o : Path → Outcome) (p : Path) (old new : Forming) (r : Returned T Stopped) → Stands shape old.set none →
        old.set.count ≡ count_of shape → old.instances ≡ 0 → old.path.items ≡ p → Follows shape (o old.path.items) old new r →
        OnOk r (IsSet shape (o p) new.set new.instances) }
    ensures stopped { (shape : Shape) (o : Path → Outcome) (p : Path) (old new : Forming) (r : Returned T Stopped) → Stands shape old.set none →
        old.set.count ≡ count_of shape → old.instances ≡ 0 → old.path.items ≡ p → Follows shape (o old.path.items) old new r →
        IfErr r (IsStoppedAt (o p) new.path.items) }
{}

/// An error that is handed on, and one that says nothing of an outcome.
pub fn stopping_laws<S: Drop, T: Drop>()
    ensures handed_on { (o q : Outcome) (p : Path) (given : Returned S Stopped) (returned : Returned T Stopped) (stop : Stopped) → given ≡ Err stop →
        IsErrAnd returned (λ again. again ≡ stop) → ((s : Path) → o.result ≡ Exhausted s → q.result ≡ Exhausted s) →
        IfErr given (IsStoppedAt o p) → IfErr returned (IsStoppedAt q p) }
    ensures memory { (o : Outcome) (p : Path) (returned : Returned T Stopped) → IfErr returned (λ stop. stop ≡ Memory) → IfErr returned (IsStoppedAt o p) }
{}

/// What a part of a sequence, or a turn, makes of what comes after it; and what its set is, if it
/// ends the sequence or doesn't.
pub fn part_laws()
    ensures good_part { (o : Outcome) (V : UpdateSet) (rest : UpdateSet → Outcome) → o.result ≡ Gives V → IsConsistent V →
        part_and o.result o.instances rest ≡ following V o.instances (rest V) }
    ensures faulty_part { (o : Outcome) (V : UpdateSet) (rest : UpdateSet → Outcome) → o.result ≡ Gives V → ¬ (IsConsistent V) →
        part_and o.result o.instances rest ≡ record { result = Gives V; instances = o.instances } }
    ensures exhausted_part { (o : Outcome) (rest : UpdateSet → Outcome) (q : Path) → o.result ≡ Exhausted q →
        (part_and o.result o.instances rest).result ≡ Exhausted q }
    ensures good_turn { (o : Outcome) (V : UpdateSet) (rest : UpdateSet → Outcome) → o.result ≡ Gives V → V ≢ none → IsConsistent V →
        turn_and o.result o.instances rest ≡ following V o.instances (rest V) }
    ensures last_turn { (o : Outcome) (V : UpdateSet) (rest : UpdateSet → Outcome) → o.result ≡ Gives V → (V ≡ none) ⊎ (¬ (IsConsistent V)) →
        turn_and o.result o.instances rest ≡ record { result = Gives V; instances = o.instances } }
    ensures exhausted_turn { (o : Outcome) (rest : UpdateSet → Outcome) (q : Path) → o.result ≡ Exhausted q →
        (turn_and o.result o.instances rest).result ≡ Exhausted q }
    ensures consistent_part { (V : UpdateSet) (part : PartSet) → IsPartSet V part → ends_parts part ≡ false → IsConsistent V }
    ensures ending_part { (V : UpdateSet) (part : PartSet) → IsPartSet V part → ends_parts part ≡ true → ¬ (IsConsistent V) }
    ensures some_turn { (V : UpdateSet) (part : PartSet) → IsPartSet V part → ends_turns part ≡ false → V ≢ none }
    ensures consistent_turn { (V : UpdateSet) (part : PartSet) → IsPartSet V part → ends_turns part ≡ false → IsConsistent V }
    ensures ending_turn { (V : UpdateSet) (part : PartSet) → IsPartSet V part → ends_turns part ≡ true → (V ≡ none) ⊎ (¬ (IsConsistent V)) }
{}

/// A part of a sequence, joined to what is there: one that is formed alone, and one whose set is
/// known.
pub fn sequence_laws()
    ensures goes_upon { (shape : Shape) (o : Outcome) (U : UpdateSet) (cleared so_far joined made : SummaryRanges) (part : PartSet) (before after : ℕ) → Stands shape cleared none →
        Stands shape so_far U → ((V W : UpdateSet) → Stands shape so_far V → Stands shape made W → Stands shape joined (merge V W)) →
        ((V : UpdateSet) → Stands shape made V → IsPartSet V part) → Forms shape o cleared made before after → IsMergedPart shape o U joined part before after }
    ensures goes_by { (shape : Shape) (o : Outcome) (U V : UpdateSet) (joined : SummaryRanges) (part : PartSet) (n : ℕ) → o ≡ record { result = Gives V; instances = 0 } →
        n ≤ greatest_count → IsPartSet V part → Stands shape joined (merge U V) → IsMergedPart shape o U joined part n n }
{}
