//! Solutions of models of one block, and what its end is at most once merges are taken.

/// A block that only returns, and one that adds: each with every name in a slot, and with its operations one by one. Of the first also
/// what the merges of its packets break.
pub(crate) static MERGES: &[u8] = b"func f
block e freq 1
  ret
^16 17 18 19 20 21 22 23 24 25 26 27 31 0 0 0
0 0 0 0 0 0 0 0 0 0 0 0 0 0 0 0
0 0 0 0 0 0 0 0 0 0 0 0 0 0 0 0
0 2 2 36 1 1 1 5 3 3 1 31 6 2 0 0
0 0 0 0 0 0 0 0 0 0 0 0 0 0 0 0
0 0 0 0 0 0 0 0 0 0 0 0 0 0 0 0
0 0 0 0 0 0 0 0 0 0 0 0 0 0 0 0
0 0 0 0 0 0 0 0 0 0 7 1
?m 6:yes\
|&?with 50=1 55=4 57=2 60=5 122=6: 10\
|&?with 55=4 57=2 60=5 122=6: 5\
|&?with 55=4 60=5 122=6:\
|&?with 60=5 122=6:\
|&?with 122=6: 5\
|func f
block e freq 1
  ret
^16 17 18 19 20 21 22 23 24 25 26 27 31 0 0 0
0 0 0 0 0 0 0 0 0 0 0 0 0 0 0 0
0 0 0 0 0 0 0 0 0 0 0 0 0 0 0 0
0 0 0 0 0 0 0 0 0 0 0 0 6 0 0 0
0 0 0 0 0 0 0 0 0 0 0 0 0 0 0 0
0 0 0 0 0 0 0 0 0 0 0 0 0 0 0 0
0 0 0 0 0 0 0 0 0 0 0 0 0 0 0 0
0 0 0 0 0 0 0 0 0 0 7 0
?m 2:yes|func g %a %b
block e freq 10
  %c = add %a, %b
  ret %c
^0 1 16 17 18 19 20 21 22 23 24 25 26 27 31 2
2 36 2 3 37 0 0 0 0 0 0 0 0 0 0 0
0 0 0 0 0 0 0 0 0 0 0 0 0 0 0 0
0 0 0 0 0 0 0 0 0 2 4 39 1 1 3 5
1 0 3 7 1 1 9 2 2 0 2 10 38 1 15 3
13 1 31 16 2 3 11 1 0 0 0 0 0 0 0 0
0 0 0 0 0 0 0 0 0 0 0 0 0 0 0 0
0 0 0 0 0 0 0 0 0 0 0 0 0 0 0 0
0 0 0 0 0 0 0 0 0 2 0 0 0 0 0 0
0 0 0 0 0 0 17 1
?m 12:yes|func g %a %b
block e freq 10
  %c = add %a, %b
  ret %c
^0 1 16 17 18 19 20 21 22 23 24 25 26 27 31 0
0 0 2 3 37 0 0 0 0 0 0 0 0 0 0 0
0 0 0 0 0 0 0 0 0 0 0 0 0 0 0 0
0 0 0 0 0 0 0 0 0 2 6 39 1 1 0 0
0 0 3 4 1 1 6 0 2 3 2 7 38 1 8 3
8 1 31 10 2 3 8 1 0 0 0 0 0 0 0 0
0 0 0 0 0 0 0 0 0 0 0 0 0 0 0 0
0 0 0 0 0 0 0 0 0 0 0 0 0 0 0 0
0 0 0 0 0 0 0 0 0 2 0 0 0 0 0 0
0 0 0 0 0 0 11 1
?m 10:yes";
