//! Laws of codes.
ghost use denote.Param.Send.{IsSync};
ghost use Rattle.std.specs.Prelude.{◌≡◌, ℕ, List, Option, length, map, option_map};
ghost use Rattle.std.specs.Arc.{arc_value};
ghost use Rattle.std.proofs.Common.{Box, Vec, Global};
ghost use Rattle.std.specs.declared.sync.Arc.{Arc};
ghost use Rattle.asm_state.specs.declared.operation.Op.{Op};
ghost use Rattle.asm_state.specs.declared.value.Value.{Value};
ghost use Rattle.asm_code.specs.code.CodeTree as tree;
ghost use Rattle.asm_code.specs.code.CodeViews.{code_of, codes_of, link_of, links_of};
ghost use Rattle.asm_code.specs.code.RuleStories.{AreCodeOutcomes};
ghost use Rattle.asm_code.specs.code.RuleTree as rule_tree;
ghost use Rattle.asm_code.specs.code.RuleViews.{target_code_of, rule_of, rules_of};
ghost use Rattle.asm_code.specs.code.SoundCodes.{count};
ghost use Rattle.asm_code.specs.contracts.code.Code as terms;
ghost use Rattle.asm_code.specs.contracts.rule_code.RuleCode as rules;
ghost use Rattle.asm_code.specs.declared.code.Code.TheVariants as code;
ghost use Rattle.asm_code.specs.declared.code.Code.{Code};
ghost use Rattle.asm_code.specs.declared.code.Grid.{Grid};
ghost use Rattle.asm_code.specs.declared.code.CodeRange.{CodeRange};
ghost use Rattle.asm_code.specs.declared.rule_code.TargetCode.{TargetCode};
ghost use Rattle.asm_code.specs.declared.rule_code.RuleCode.TheVariants as rule;
ghost use Rattle.asm_code.specs.declared.rule_code.RuleCode.{RuleCode};

/// The trees that terms' codes of these variants stand for, and how many codes that of a list has.
pub fn code_laws()
    ensures constant_form { (t : Code) (v : Value) → t ≡ code.Constant v →
        code_of t ≡ tree.Constant v }
    ensures local_form { (t : Code) (i : ℕ) → t ≡ code.Local i → code_of t ≡ tree.Local i }
    ensures cell_form { (t : Code) (n : ℕ) → t ≡ code.Cell n → code_of t ≡ tree.Cell n }
    ensures row_form { (t : Code) (first : ℕ) (over : CodeRange) (s : Box Code Global) →
        t ≡ code.Row first over s →
        code_of t ≡ tree.Row first over.low over.count (code_of s.value) }
    ensures grid_form { (t : Code) (at : Grid) (s : Box Code Global) (u : Box Code Global) →
        t ≡ code.Grid at s u →
        code_of t ≡ tree.Grid at.first at.rows.low at.rows.count at.columns.low at.columns.count
        (code_of s.value) (code_of u.value) }
    ensures held_form { (t : Code) (f : ℕ) (ts : Vec Code Global) → t ≡ code.FunctionAt f ts →
        code_of t ≡ tree.Held f (codes_of (map code_of ts.items)) }
    ensures derived_form { (t : Code) (body : Arc Code Global) (ts : Vec Code Global) →
        t ≡ code.Derived body ts →
        code_of t ≡ tree.Derived (code_of (arc_value body)) (codes_of (map code_of ts.items)) }
    ensures with_form { (t : Code) (o : Op) (s : Box Code Global) (v : Value) →
        t ≡ code.With o s v → code_of t ≡ tree.With o (code_of s.value) v }
    ensures both_form { (t : Code) (o : Op) (s : Box Code Global) (u : Box Code Global) →
        t ≡ code.Both o s u → code_of t ≡ tree.Both o (code_of s.value) (code_of u.value) }
    ensures chain_form { (t : Code) (s : Box Code Global) (links : Vec (Op × Code) Global) →
        t ≡ code.Chain s links →
        code_of t ≡ tree.Chain (code_of s.value) (links_of (map link_of links.items)) }
    ensures exists_form { (t : Code) (over : ℕ) (s : Box Code Global) → t ≡ code.Exists over s →
        code_of t ≡ tree.Exists over (code_of s.value) }
    ensures every_form { (t : Code) (over : ℕ) (s : Box Code Global) → t ≡ code.Every over s →
        code_of t ≡ tree.Every over (code_of s.value) }
    ensures count_of_codes { (ts : List Code) → count (codes_of (map code_of ts)) ≡ length ts }
{}

/// The trees that rules' codes stand for, by their variants.
pub fn rule_laws()
    ensures skip_form { (P : RuleCode) → P ≡ rule.Skip → rule_of P ≡ rule_tree.Skip }
    ensures assign_form { (P : RuleCode) (to : TargetCode) (t : Code) → P ≡ rule.Assign to t →
        rule_of P ≡ rule_tree.Assign (target_code_of to) (code_of t) }
    ensures par_form { (P : RuleCode) (Ps : Vec RuleCode Global) → P ≡ rule.Par Ps →
        rule_of P ≡ rule_tree.Par (rules_of (map rule_of Ps.items)) }
    ensures seq_form { (P : RuleCode) (Ps : Vec RuleCode Global) → P ≡ rule.Seq Ps →
        rule_of P ≡ rule_tree.Seq (rules_of (map rule_of Ps.items)) }
    ensures if_form { (P : RuleCode) (c : Code) (Q R : Box RuleCode Global) → P ≡ rule.If c Q R →
        rule_of P ≡ rule_tree.If (code_of c) (rule_of Q.value) (rule_of R.value) }
    ensures let_form { (P : RuleCode) (t : Code) (Q : Box RuleCode Global) → P ≡ rule.Let t Q →
        rule_of P ≡ rule_tree.Let (code_of t) (rule_of Q.value) }
    ensures forall_form { (P : RuleCode) (u : ℕ) (c : Option Code) (Q : Box RuleCode Global) →
        P ≡ rule.Forall u c Q →
        rule_of P ≡ rule_tree.Forall u (option_map code_of c) (rule_of Q.value) }
    ensures choose_form { (P : RuleCode) (u : ℕ) (c : Option Code) (Q R : Box RuleCode Global) →
        P ≡ rule.Choose u c Q R →
        rule_of P ≡ rule_tree.Choose u (option_map code_of c) (rule_of Q.value) (rule_of R.value) }
    ensures iterate_form { (P : RuleCode) (Q : Box RuleCode Global) → P ≡ rule.Iterate Q →
        rule_of P ≡ rule_tree.Iterate (rule_of Q.value) }
    ensures call_form { (P : RuleCode) (body : Arc RuleCode Global) (to : Option TargetCode) →
        (ts : Vec Code Global) → P ≡ rule.Call body to ts →
        rule_of P ≡ rule_tree.Call (rule_of (arc_value body)) (option_map target_code_of to)
        (codes_of (map code_of ts.items)) }
{}

/// Threads may share codes.
pub fn sharing_laws()
    ensures codes { IsSync terms.the_row }
    ensures rules { IsSync rules.the_row }
{}

/// The story of a resolved rule yields what the rule does.
pub fn code_outcomes()
    ensures { AreCodeOutcomes }
{}
