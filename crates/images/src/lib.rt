// Two atoms matched down the rows, and the images of the variables noted. `Matching` in specs/ says what the functions answer and leave.
#![tactic(auto)]

pub mod images;
