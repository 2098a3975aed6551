//! Tests of the program over readers and writers that no system's file is, through the public
//! functions of `asm_tool` and `asm_files`.
#![tactic(auto)]

#[cfg(test)]
mod command_line;
#[cfg(test)]
mod inputs;
#[cfg(test)]
mod outputs;
#[cfg(test)]
mod shown;
