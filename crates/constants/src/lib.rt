// Constants written as lists: the bytes of a quoted text, and the table of a function's values. It has no code.
#![tactic(auto)]
