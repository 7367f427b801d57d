// What a refused call tells. The crate has one definition, in specs/, and nothing to run: every crate whose calls
// refuse says with it which number and which values a refusal has.
#![tactic(auto)]
