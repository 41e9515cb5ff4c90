#![tactic(auto)]
// The places of the words of digits, by apostrophe, digit and case: of each match the compiler makes a load, where a constant table would be built on
// the stack for each word. Made by tools/gen_words.py.
pub mod units; // units, 3 to 9
pub mod tens; // tens, 2 to 9
pub mod hundreds; // hundreds, 1 to 9
