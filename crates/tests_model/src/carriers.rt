//! What carries values in cycles of solutions, worked out by hand.

/// Functions with a solution: constants that are added, with no copy; and a sum of which each name has a slot. Then a value and a cycle,
/// and the temporary that carries the value in it, or `none` where the value is not there yet or is not read later.
pub(crate) static CARRIERS: &[u8] = b"func f
block e freq 3
  %a = imm #1
  %b = imm #2
  %c = add %a, %b
  ret %c
^16 17 18 19 20 21 22 23 24 25 26 27 31 0 0 0
0 0 0 0 0 0 0 0 0 0 0 0 0 0 0 0
0 0 0 0 0 0 0 0 0 0 0 0 0 0 0 0
0 0 0 0 0 0 1 0 0 0 0 1 1 0 0 0
0 0 0 0 0 0 0 0 2 0 0 0 0 0 0 0
0 0 0 0 0 2 0 0 0 0 0 0 0 0 0 0
0 0 0 0 0 0 0 0 0 0 0 0 0 0 0 0
0 0 0 0 0 0 0 0 0 0 0 0 0 0 0 0
0 0 0 0 0 0 0 0 0 0 0 0 0 0 0 0
0 0 0 0 0 0 0 0 3 0
?k 26 1:26\
|&?k 26 0:none\
|&?k 26 2:none\
|&?k 28 1:28\
|&?k 27 1:none\
|&?k 32 2:32\
|&?k 400 1:none\
|func g %a %b
block e freq 10
  %c = add %a, %b
  ret %c
^0 1 16 17 18 19 20 21 22 23 24 25 26 27 31 2
2 36 2 3 37 0 0 0 0 0 0 0 0 0 0 0
0 0 0 0 0 0 0 0 0 0 0 0 0 0 0 0
0 0 0 0 0 0 0 0 0 2 4 39 1 1 3 5
1 0 3 7 1 1 9 2 2 0 2 10 38 1 15 3
13 1 31 16 2 3 11 1 0 0 0 0 0 0 0 0
0 0 0 0 0 0 0 0 0 0 0 0 0 0 0 0
0 0 0 0 0 0 0 0 0 0 0 0 0 0 0 0
0 0 0 0 0 0 0 0 0 2 0 0 0 0 0 0
0 0 0 0 0 0 17 1
?k 0 0:0\
|&?k 0 1:0\
|&?k 0 2:15\
|&?k 0 4:15\
|&?k 0 5:30\
|&?k 0 8:30\
|&?k 0 9:none\
|&?k 14 3:14\
|&?k 14 4:29\
|&?k 14 13:34";
