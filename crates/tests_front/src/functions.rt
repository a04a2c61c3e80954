//! Functions with what is known of each: the names live at each block's start, what runs come to, its linear function, and blocks of its
//! extended function.
//!
//! A run is of at most so many blocks, from parameters, words of memory by their addresses, and answers of calls, each with the words
//! that it changes.

use crate::outside_runs::OUTSIDE;
use crate::rows::{About, all_answered};

/// Functions, and what is known of each.
static FUNCTIONS: &[u8] =
    b"# A name of the entry, `%k`, is live at the second block of the loop by the jump back alone.
|func v %k %n
block e freq 1
block a freq 10
  %s = add %k, %n
block b freq 10
  %n = addi %n, #-1
  $c = cmpgti %n, #0
  if $c jump a
block z freq 1
  ret
?names:e: %k %n
a: %k %n
b: %k %n
z:
|&?run 8;5 3:returned
|&?run 7;5 3:running z
|&?run 4;5 3:running b
value %k 5
value %n 2
|&?run 0;5 3:running e
value %k 5
value %n 3
|&?linear:block e freq 1 horizon 6
  o0 in -> t0@r0 t1@r1 t2@r16 t3@r17 t4@r18 t5@r19 t6@r20 t7@r21 t8@r22 t9@r23 t10@r24 t11@r25 t12@r26 t13@r27 t14@r31
  o1 out [t0] [t1] [t2] [t3] [t4] [t5] [t6] [t7] [t8] [t9] [t10] [t11] [t12] [t13] [t14]
block a freq 10 horizon 8
  o2 in -> t15 t16 t17 t18 t19 t20 t21 t22 t23 t24 t25 t26 t27 t28 t29
  o3 add [t15] [t16] -> t30
  o4 out [t15] [t16] [t17] [t18] [t19] [t20] [t21] [t22] [t23] [t24] [t25] [t26] [t27] [t28] [t29]
block b freq 10 horizon 12
  o5 in -> t31 t32 t33 t34 t35 t36 t37 t38 t39 t40 t41 t42 t43 t44 t45
  o6 addi [t32] #-1 -> t46
  o7 cmpgti [t46] #0 -> t47
  o8 if [t47] jump a
  o9 out [t31] [t46] [t33] [t34] [t35] [t36] [t37] [t38] [t39] [t40] [t41] [t42] [t43] [t44] [t45]
block z freq 1 horizon 8
  o10 in -> t48 t49 t50 t51 t52 t53 t54 t55 t56 t57 t58 t59 t60
  o11 ret [t60]
  o12 out [t48]@r16 [t49]@r17 [t50]@r18 [t51]@r19 [t52]@r20 [t53]@r21 [t54]@r22 [t55]@r23 [t56]@r24 [t57]@r25 [t58]@r26 [t59]@r27
|&?extended:block a freq 10 horizon 22
  o33 in -> t45 t46 t47 t48 t49 t50 t51 t52 t53 t54 t55 t56 t57 t58 t59
  o34 d [t45] -> t60
  o35 d [t46] -> t61
  o36 u [t45 t60] -> t62
  o37 u [t46 t61] -> t63
  o38 add [t45 t60 t62] [t46 t61 t63] -> t64
  o39 d [t64] -> t65
  o40 u [t45 t60] -> t66
  o41 u [t46 t61] -> t67
  o42 out [t45 t60 t62 t66] [t46 t61 t63 t67] [t47] [t48] [t49] [t50] [t51] [t52] [t53] [t54] [t55] [t56] [t57] [t58] [t59]
block b freq 10 horizon 34
  o43 in -> t68 t69 t70 t71 t72 t73 t74 t75 t76 t77 t78 t79 t80 t81 t82
  o44 d [t68] -> t83
  o45 d [t69] -> t84
  o46 u [t69 t84] -> t85
  o47 addi [t69 t84 t85] #-1 -> t86
  o48 d [t86] -> t87
  o49 u [t86 t87] -> t88
  o50 cmpgti [t86 t87 t88] #0 -> t89
  o51 d [t89] -> t90
  o52 d2 [t89 t90] -> t91
  o53 u [t89 t90 t91] -> t92
  o54 u2 [t89 t90 t91 t92] -> t93
  o55 if [t89 t90 t91 t92 t93] jump a
  o56 u [t68 t83] -> t94
  o57 u [t86 t87] -> t95
  o58 out [t68 t83 t94] [t86 t87 t88 t95] [t70] [t71] [t72] [t73] [t74] [t75] [t76] [t77] [t78] [t79] [t80] [t81] [t82]
|# The distance of two words.
|func d %a %b
block e freq 10
  $p = cmpgt %a, %b
  if $p jump y
block x freq 4
  %c = sub %b, %a
  jump z
block y freq 6
  %c = sub %a, %b
block z freq 10
  ret %c
?names:e: %a %b
x: %a %b
y: %a %b
z: %c
|&?run 3;9 4:returned 5
|&?run 2;4 9:running z
value %c 5
|&?linear:block e freq 10 horizon 10
  o0 in -> t0@r0 t1@r1 t2@r16 t3@r17 t4@r18 t5@r19 t6@r20 t7@r21 t8@r22 t9@r23 t10@r24 t11@r25 t12@r26 t13@r27 t14@r31
  o1 cmpgt [t0] [t1] -> t15
  o2 if [t15] jump y
  o3 out [t0] [t1] [t2] [t3] [t4] [t5] [t6] [t7] [t8] [t9] [t10] [t11] [t12] [t13] [t14]
block x freq 4 horizon 10
  o4 in -> t16 t17 t18 t19 t20 t21 t22 t23 t24 t25 t26 t27 t28 t29 t30
  o5 sub [t17] [t16] -> t31
  o6 jump z
  o7 out [t31] [t18] [t19] [t20] [t21] [t22] [t23] [t24] [t25] [t26] [t27] [t28] [t29] [t30]
block y freq 6 horizon 8
  o8 in -> t32 t33 t34 t35 t36 t37 t38 t39 t40 t41 t42 t43 t44 t45 t46
  o9 sub [t32] [t33] -> t47
  o10 out [t47] [t34] [t35] [t36] [t37] [t38] [t39] [t40] [t41] [t42] [t43] [t44] [t45] [t46]
block z freq 10 horizon 8
  o11 in -> t48 t49 t50 t51 t52 t53 t54 t55 t56 t57 t58 t59 t60 t61
  o12 ret [t61]
  o13 out [t48]@r0 [t49]@r16 [t50]@r17 [t51]@r18 [t52]@r19 [t53]@r20 [t54]@r21 [t55]@r22 [t56]@r23 [t57]@r24 [t58]@r25 [t59]@r26 [t60]@r27
|# A jump back to a block that is not the entry and that nothing else leads to.
|func j %n
block e freq 1
  jump l
block a freq 5
  %n = addi %n, #-1
block l freq 6
  $c = cmpgti %n, #0
  if $c jump a
block z freq 1
  ret
?names:e: %n
a: %n
l: %n
z:
|&?run 6;2 0:running z
|&?run 3;2 0:running l
value %n 1
|&?linear:block e freq 1 horizon 8
  o0 in -> t0@r0 t1@r16 t2@r17 t3@r18 t4@r19 t5@r20 t6@r21 t7@r22 t8@r23 t9@r24 t10@r25 t11@r26 t12@r27 t13@r31
  o1 jump l
  o2 out [t0] [t1] [t2] [t3] [t4] [t5] [t6] [t7] [t8] [t9] [t10] [t11] [t12] [t13]
block a freq 5 horizon 8
  o3 in -> t14 t15 t16 t17 t18 t19 t20 t21 t22 t23 t24 t25 t26 t27
  o4 addi [t14] #-1 -> t28
  o5 out [t28] [t15] [t16] [t17] [t18] [t19] [t20] [t21] [t22] [t23] [t24] [t25] [t26] [t27]
block l freq 6 horizon 10
  o6 in -> t29 t30 t31 t32 t33 t34 t35 t36 t37 t38 t39 t40 t41 t42
  o7 cmpgti [t29] #0 -> t43
  o8 if [t43] jump a
  o9 out [t29] [t30] [t31] [t32] [t33] [t34] [t35] [t36] [t37] [t38] [t39] [t40] [t41] [t42]
block z freq 1 horizon 8
  o10 in -> t44 t45 t46 t47 t48 t49 t50 t51 t52 t53 t54 t55 t56
  o11 ret [t56]
  o12 out [t44]@r16 [t45]@r17 [t46]@r18 [t47]@r19 [t48]@r20 [t49]@r21 [t50]@r22 [t51]@r23 [t52]@r24 [t53]@r25 [t54]@r26 [t55]@r27
|# Blocks without operations, which lead to the next one.
|func e %a
block a freq 3
block b freq 7
block c freq 2
  ret %a
?names:a: %a
b: %a
c: %a
|&?run 2;7 0:running c
value %a 7
|&?run 3;7 0:returned 7
|# A branch whose two ways lead to one block.
|func o %a
block e freq 1
  $p = cmpeqi %a, #0
  if !$p jump x
block x freq 1
  ret %a
?names:e: %a
x: %a
|&?run 1;0 0:running x
value %a 0
|&?run 2;1 0:returned 1
|# Predicates that are live round a loop: `$f` from before it to behind it, `$c` from each pass to the next.
|func p %n
block e freq 1
  $f = cmpeqi %n, #0
  $c = cmpgti %n, #1
block l freq 8
  if !$c jump z
block m freq 7
  %n = addi %n, #-1
  $c = cmpgti %n, #1
  jump l
block z freq 1
  %n = mux $f, %n, %n
  ret %n
?names:e: %n
l: %n $f $c
m: %n $f
z: %n $f
|&?run 3;2 0:running l
value %n 1
value $f 0
value $c 0
|&?run 2;0 0:running z
value %n 0
value $f 1
|&?linear:block e freq 1 horizon 10
  o0 in -> t0@r0 t1@r16 t2@r17 t3@r18 t4@r19 t5@r20 t6@r21 t7@r22 t8@r23 t9@r24 t10@r25 t11@r26 t12@r27 t13@r31
  o1 cmpeqi [t0] #0 -> t14
  o2 cmpgti [t0] #1 -> t15
  o3 out [t0] [t14] [t15] [t1] [t2] [t3] [t4] [t5] [t6] [t7] [t8] [t9] [t10] [t11] [t12] [t13]
block l freq 8 horizon 8
  o4 in -> t16 t17 t18 t19 t20 t21 t22 t23 t24 t25 t26 t27 t28 t29 t30 t31
  o5 if ! [t18] jump z
  o6 out [t16] [t17] [t19] [t20] [t21] [t22] [t23] [t24] [t25] [t26] [t27] [t28] [t29] [t30] [t31]
block m freq 7 horizon 12
  o7 in -> t32 t33 t34 t35 t36 t37 t38 t39 t40 t41 t42 t43 t44 t45 t46
  o8 addi [t32] #-1 -> t47
  o9 cmpgti [t47] #1 -> t48
  o10 jump l
  o11 out [t47] [t33] [t48] [t34] [t35] [t36] [t37] [t38] [t39] [t40] [t41] [t42] [t43] [t44] [t45] [t46]
block z freq 1 horizon 10
  o12 in -> t49 t50 t51 t52 t53 t54 t55 t56 t57 t58 t59 t60 t61 t62 t63
  o13 mux [t50] [t49] [t49] -> t64
  o14 ret [t63]
  o15 out [t64]@r0 [t51]@r16 [t52]@r17 [t53]@r18 [t54]@r19 [t55]@r20 [t56]@r21 [t57]@r22 [t58]@r23 [t59]@r24 [t60]@r25 [t61]@r26 [t62]@r27
|&?extended:block l freq 8 horizon 28
  o43 in -> t54 t55 t56 t57 t58 t59 t60 t61 t62 t63 t64 t65 t66 t67 t68 t69
  o44 d [t54] -> t70
  o45 d [t55] -> t71
  o46 d2 [t55 t71] -> t72
  o47 d [t56] -> t73
  o48 d2 [t56 t73] -> t74
  o49 u [t56 t73 t74] -> t75
  o50 u2 [t56 t73 t74 t75] -> t76
  o51 if ! [t56 t73 t74 t75 t76] jump z
  o52 u [t54 t70] -> t77
  o53 u [t55 t71 t72] -> t78
  o54 u2 [t55 t71 t72 t78] -> t79
  o55 out [t54 t70 t77] [t55 t71 t72 t78 t79] [t57] [t58] [t59] [t60] [t61] [t62] [t63] [t64] [t65] [t66] [t67] [t68] [t69]
block m freq 7 horizon 38
  o56 in -> t80 t81 t82 t83 t84 t85 t86 t87 t88 t89 t90 t91 t92 t93 t94
  o57 d [t80] -> t95
  o58 d [t81] -> t96
  o59 d2 [t81 t96] -> t97
  o60 u [t80 t95] -> t98
  o61 addi [t80 t95 t98] #-1 -> t99
  o62 d [t99] -> t100
  o63 u [t99 t100] -> t101
  o64 cmpgti [t99 t100 t101] #1 -> t102
  o65 d [t102] -> t103
  o66 d2 [t102 t103] -> t104
  o67 jump l
  o68 u [t99 t100] -> t105
  o69 u [t81 t96 t97] -> t106
  o70 u2 [t81 t96 t97 t106] -> t107
  o71 u [t102 t103 t104] -> t108
  o72 u2 [t102 t103 t104 t108] -> t109
  o73 out [t99 t100 t101 t105] [t81 t96 t97 t106 t107] [t102 t103 t104 t108 t109] [t82] [t83] [t84] [t85] [t86] [t87] [t88] [t89] [t90] [t91] [t92] [t93] [t94]
|# `%a` and `%b` are live on one way each.
|func w %a %b
block e freq 5
  $p = cmpeq %a, %b
  if $p jump y
block x freq 1
  ret %a
block y freq 4
  ret %b
?names:e: %a %b
x: %a
y: %b
|&?run 1;6 6:running y
value %b 6
|&?linear:block e freq 5 horizon 10
  o0 in -> t0@r0 t1@r1 t2@r16 t3@r17 t4@r18 t5@r19 t6@r20 t7@r21 t8@r22 t9@r23 t10@r24 t11@r25 t12@r26 t13@r27 t14@r31
  o1 cmpeq [t0] [t1] -> t15
  o2 if [t15] jump y
  o3 out [t0] [t1] [t2] [t3] [t4] [t5] [t6] [t7] [t8] [t9] [t10] [t11] [t12] [t13] [t14]
block x freq 1 horizon 8
  o4 in -> t16 t17 t18 t19 t20 t21 t22 t23 t24 t25 t26 t27 t28 t29
  o5 ret [t29]
  o6 out [t16]@r0 [t17]@r16 [t18]@r17 [t19]@r18 [t20]@r19 [t21]@r20 [t22]@r21 [t23]@r22 [t24]@r23 [t25]@r24 [t26]@r25 [t27]@r26 [t28]@r27
block y freq 4 horizon 8
  o7 in -> t30 t31 t32 t33 t34 t35 t36 t37 t38 t39 t40 t41 t42 t43
  o8 ret [t43]
  o9 out [t30]@r0 [t31]@r16 [t32]@r17 [t33]@r18 [t34]@r19 [t35]@r20 [t36]@r21 [t37]@r22 [t38]@r23 [t39]@r24 [t40]@r25 [t41]@r26 [t42]@r27
|# Accesses of memory, and calls with a result and without.
|func m %p
block e freq 2
  %x = load %p, #4
  %y = call h %x, %p
  store %p, #-8, %y
  call g
  ret %x
?names:e: %p
|&?linear:block e freq 2 horizon 16
  o0 in -> t0@r0 t1@r16 t2@r17 t3@r18 t4@r19 t5@r20 t6@r21 t7@r22 t8@r23 t9@r24 t10@r25 t11@r26 t12@r27 t13@r31
  o1 load [t0] #4 -> t14
  o2 call h [t14]@r0 [t0]@r1 -> t15@r0
  o3 store [t0] #-8 [t15]
  o4 call g
  o5 ret [t13]
  o6 out [t14]@r0 [t1]@r16 [t2]@r17 [t3]@r18 [t4]@r19 [t5]@r20 [t6]@r21 [t7]@r22 [t8]@r23 [t9]@r24 [t10]@r25 [t11]@r26 [t12]@r27
|# A function that returns at once: saved values and operands that read them have copies, and Enter and Leave stand there.
|func f
block e freq 1
ret?extended:block e freq 1 horizon 64
  o0 in -> t0@r16 t1@r17 t2@r18 t3@r19 t4@r20 t5@r21 t6@r22 t7@r23 t8@r24 t9@r25 t10@r26 t11@r27 t12@r31
  o1 d [t0] -> t13
  o2 d [t1] -> t14
  o3 d [t2] -> t15
  o4 d [t3] -> t16
  o5 d [t4] -> t17
  o6 d [t5] -> t18
  o7 d [t6] -> t19
  o8 d [t7] -> t20
  o9 d [t8] -> t21
  o10 d [t9] -> t22
  o11 d [t10] -> t23
  o12 d [t11] -> t24
  o13 d [t12] -> t25
  o14 enter
  o15 leave
  o16 u [t12 t25] -> t26
  o17 ret [t12 t25 t26]
  o18 u [t0 t13] -> t27
  o19 u [t1 t14] -> t28
  o20 u [t2 t15] -> t29
  o21 u [t3 t16] -> t30
  o22 u [t4 t17] -> t31
  o23 u [t5 t18] -> t32
  o24 u [t6 t19] -> t33
  o25 u [t7 t20] -> t34
  o26 u [t8 t21] -> t35
  o27 u [t9 t22] -> t36
  o28 u [t10 t23] -> t37
  o29 u [t11 t24] -> t38
  o30 out [t0 t13 t27]@r16 [t1 t14 t28]@r17 [t2 t15 t29]@r18 [t3 t16 t30]@r19 [t4 t17 t31]@r20 [t5 t18 t32]@r21 [t6 t19 t33]@r22 [t7 t20 t34]@r23 [t8 t21 t35]@r24 [t9 t22 t36]@r25 [t10 t23 t37]@r26 [t11 t24 t38]@r27
|# The word at an address, and two names that are read twice by one operation: an operand may choose the copies of the operands before it that read its value.
|func r %a
block e freq 1
  jump l
block l freq 1
  %b = load %a, #8
  %c = add %a, %a
  %r = call h %b, %c
  store %r, #0, %a
  jump l
?extended:block l freq 1 horizon 40
  o32 in -> t42 t43 t44 t45 t46 t47 t48 t49 t50 t51 t52 t53 t54 t55
  o33 d [t42] -> t56
  o34 u [t42 t56] -> t57
  o35 load [t42 t56 t57] #8 -> t58
  o36 d [t58] -> t59
  o37 u [t42 t56] -> t60
  o38 u [t42 t56] -> t61
  o39 add [t42 t56 t57 t60] [t42 t56 t57 t60 t61] -> t62
  o40 d [t62] -> t63
  o41 u [t58 t59] -> t64
  o42 u [t62 t63] -> t65
  o43 call h [t58 t59 t64]@r0 [t62 t63 t65]@r1 -> t66@r0
  o44 d [t66] -> t67
  o45 u [t66 t67] -> t68
  o46 u [t42 t56] -> t69
  o47 store [t66 t67 t68] #0 [t42 t56 t57 t60 t61 t69]
  o48 jump l
  o49 u [t42 t56] -> t70
  o50 out [t42 t56 t57 t60 t61 t69 t70] [t43] [t44] [t45] [t46] [t47] [t48] [t49] [t50] [t51] [t52] [t53] [t54] [t55]
|# The sum of the products of the words at two addresses.
|func dot %x %y %n
block entry freq 1
  %s = imm #0
block loop freq 100
  %u = load %x, #0
  %v = load %y, #0
  %m = mpyi %u, %v
  %s = add %s, %m
  %x = addi %x, #4
  %y = addi %y, #4
  %n = addi %n, #-1
  $c = cmpgti %n, #0
  if $c jump loop
block exit freq 1
  ret %s
?run 10;256 272 2 0 0 0;256=3 260=4 272=5 276=6:returned 39
mem 256 3
mem 260 4
mem 272 5
mem 276 6
|&?run 1;256 272 2 0 0 0;256=3 260=4 272=5 276=6:running loop
value %x 256
value %y 272
value %n 2
value %s 0
mem 256 3
mem 260 4
mem 272 5
mem 276 6
|# A call whose result is added to its argument.
|func c %a
block e freq 1
  %r = call h %a
  %s = add %r, %a
  ret %s
?run 5;5 0 0 0 0 0;;7:returned 12
call h 5
|&?run 5;5 0 0 0 0 0;:waiting h 5
|# Two loads, of which the second may trap, and a store behind them.
|func t %a %b
block e freq 1
  %x = load %a, #0
  %y = load %b, #0
  store %a, #0, %y
  ret %x
?run 5;256 258 0 0 0 0;256=17:trapped
mem 256 17
|# A call that changes a word, which a load then reads.
|func g %a
block e freq 1
  store %a, #4, %a
  call h %a
  %b = load %a, #4
  ret %b
?run 1;8 0 0 0 0 0;8=1 12=2;0 12=77:returned 77
call h 8
mem 8 1
mem 12 77
";

#[test]
fn answers_of_functions(rt: HostRuntime) {
    let own = matches!(
        all_answered(rt.alloc(), About::Functions, FUNCTIONS),
        Ok(true)
    );
    let outside = matches!(
        all_answered(rt.alloc(), About::Functions, OUTSIDE),
        Ok(true)
    );
    assert!(rt; own && outside);
}
