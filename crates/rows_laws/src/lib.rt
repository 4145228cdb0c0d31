// What is true of the definitions of rows, and no code: what the two halves hold after any rows in and out (Held), which crop rows a row reads (Reach), that a
// byte is less than two levels off the exact mean (Distance), that more gives no less (Monotone), and what both say of restored pixels (Taken).
#![tactic(auto)]
