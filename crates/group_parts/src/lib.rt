// What is true of a list that is cut into parts which follow each other, each changed on its own: no code. The work values of a group are cut so.
#![tactic(auto)]
