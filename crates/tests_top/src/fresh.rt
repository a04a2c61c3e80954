//! Runs of code with jumps on fresh predicates: a worked one, and drawn listings with what a machine by another hand made
//! of them.

use crate::rows::wrong_row;

/// Inputs, the words of a run, and what is left, as for runs of `alloc`.
static RUNS: &[u8] =
    b"# A number above 0 jumps in the packet that compares it; without the comparison the packet is bad.\
|frame 0
block e
{ p0 = cmp.gt(r0,#0); if (p0.new) jump t }
block u
{ jumpr r31 }
block t
{ jumpr r31 }
---
reg 0 5
reg 31 100
blocks 5
?run --code:done>returned 5 target 100
cycles 2
>\
|frame 0
block e
{ if (p0.new) jump t }
block u
{ jumpr r31 }
block t
{ jumpr r31 }
---
reg 0 5
reg 31 100
blocks 5
?run --code:bad 3>>bad report: line 3
|# Drawn listings.\
|frame 16
block l0
{ nop }
{ p0 = cmp.gt(r3,#-2); memw(r16+#36) = r16 }
{ p0 = cmp.gtu(r16,r0); r2 = sub(r6,r3); if (!p0.new) jump l0 }
block l1
{ memw(r29+#0) = r1 }
{ nop }
{ r3 = xor(r3,r0); p0 = cmp.eq(r3,r1); r16 = memw(r3+#84); jumpr r31 }
block l2
{ nop }
{ r6 = xor(r0,r31); r1 = add(r3,#74); r0 = memw(r31+#100) }
{ memw(r29+#0) = r31; r6 = mux(p1,r31,r16); r29 = add(r29,#-16) }
{ nop }
block l3
{ memw(r3+#44) = r0; p0 = cmp.gtu(r3,r6) }
{ jumpr r6 }
---
reg 0 124
reg 1 40
reg 2 2
reg 3 56
reg 4 48
reg 5 56
reg 6 17
reg 7 64
reg 8 112
reg 9 136
reg 10 68
reg 11 8
reg 12 50
reg 13 127
reg 14 72
reg 15 100
reg 16 156
reg 17 12
reg 18 128
reg 19 12
reg 20 96
reg 21 120
reg 22 24
reg 23 144
reg 24 4018913198
reg 25 2147483647
reg 26 56
reg 27 120
reg 28 4294967292
reg 29 24
reg 30 4294967295
reg 31 144
reg 32 1
reg 33 1
reg 34 1
mem 0 24
mem 12 255
mem 16 24
mem 24 12
mem 28 92
mem 32 0
mem 36 0
reply 142
junk 1 2597190954
junk 2 1183309204
junk 3 2576787946
junk 4 1848227756
junk 5 1438840951
blocks 2
?run --code:done>trapped
mem 0 24
mem 12 255
mem 16 24
mem 24 12
mem 28 92
mem 32 0
mem 36 0
cycles 1
>\
|frame 8
block l0
{ r31 = and(r3,r31); r6 = or(r31,r16) }
{ r31 = and(r1,r1) }
{ nop }
{ p0 = cmp.gt(r3,#80); if (!p0.new) jump l0 }
block l1
{ if (!p1) jump l2 }
block l2
{ jump l0 }
---
reg 0 181
reg 1 72
reg 2 2
reg 3 28
reg 4 44
reg 5 4294967292
reg 6 28
reg 7 64
reg 8 32
reg 9 2147483647
reg 10 144
reg 11 64
reg 12 123
reg 13 140
reg 14 124
reg 15 1
reg 16 129
reg 17 152
reg 18 4
reg 19 40
reg 20 108
reg 21 36
reg 22 32
reg 23 104
reg 24 48
reg 25 2147483647
reg 26 52
reg 27 104
reg 28 2147483647
reg 29 4008
reg 30 100
reg 31 156
reg 32 1
reg 35 1
mem 0 1
mem 4 4294967292
mem 8 148
mem 12 12
mem 16 4
mem 20 60
mem 24 124
mem 28 97
mem 32 96
mem 36 128
blocks 1
?run --code:done>running l0
mem 0 1
mem 4 4294967292
mem 8 148
mem 12 12
mem 16 4
mem 20 60
mem 24 124
mem 28 97
mem 32 96
mem 36 128
cycles 4
>\
|frame 16
block l0
{ r0 = mux(p0,r6,r16); p1 = cmp.eq(r0,#1); p0 = cmp.gt(r31,r6) }
{ p0 = cmp.eq(r16,r16); r0 = sub(r3,r2) }
{ nop }
{ r2 = and(r31,r2); p0 = cmp.eq(r3,r0); if (p0.new) jump l1 }
block l1
{ r0 = xor(r16,r3); r16 = mux(p1,r1,r1) }
{ p0 = cmp.eq(r0,#35); r6 = mpyi(r31,r31); p1 = r6 }
{ nop }
block l2
{ nop }
{ r1 = asr(r2,#28); p1 = cmp.gt(r31,r16); memw(r29+#8) = r3 }
block l3
{ r1 = #68 }
{ nop }
{ r29 = add(r29,#16); r16 = asl(r6,#3); jump l0 }
---
reg 0 72
reg 1 128
reg 2 96
reg 3 132
reg 4 152
reg 5 20
reg 6 108
reg 7 88
reg 9 100
reg 10 104
reg 11 4294967292
reg 12 124
reg 13 68
reg 14 64
reg 15 1137372826
reg 16 727282857
reg 17 4
reg 18 120
reg 19 44
reg 20 60
reg 21 72
reg 22 88
reg 23 140
reg 24 78
reg 25 140
reg 26 8
reg 27 4294967292
reg 28 104
reg 29 4016
reg 30 2147483647
reg 31 133
reg 32 1
reg 35 1
mem 0 2
mem 4 20
mem 8 72
mem 12 156
mem 16 140
mem 20 80
mem 24 148
mem 28 144
mem 32 129
mem 36 1
reply 60
junk 1 1526314021
junk 2 1576659230
junk 3 3417801919
junk 4 274481296
junk 5 494361157
reply 128
junk 1 3298337454
junk 2 1057945677
junk 3 1739248535
junk 4 1089114344
junk 5 859507244
blocks 2
?run --code:done>running l2
mem 0 2
mem 4 20
mem 8 72
mem 12 156
mem 16 140
mem 20 80
mem 24 148
mem 28 144
mem 32 129
mem 36 1
cycles 7
>\
|frame 16
block l0
{ p1 = cmp.eq(r6,r31); r29 = add(r29,#-16); if (!p1.new) jump l0 }
block l1
{ p0 = r16; p1 = cmp.eq(r0,r2) }
{ nop }
{ r2 = #-8; r3 = xor(r0,r6); r0 = asl(r6,#31) }
{ r1 = or(r0,r16); r0 = or(r6,#36) }
{ r16 = memw(r31+#152); r1 = p0; if (p0) jump l2 }
block l2
{ nop }
{ r31 = asr(r3,#18) }
{ nop }
{ nop }
{ jumpr r6 }
---
reg 0 76
reg 1 82
reg 2 12
reg 3 71
reg 4 8
reg 5 8
reg 6 32
reg 7 128
reg 8 136
reg 9 80
reg 10 2147483647
reg 11 140
reg 13 185
reg 14 52
reg 15 48
reg 16 68
reg 17 64
reg 18 4294967295
reg 19 2147483647
reg 20 52
reg 21 4
reg 22 100
reg 23 136
reg 24 104
reg 25 80
reg 26 152
reg 27 40
reg 28 44
reg 29 16
reg 30 192
reg 31 96
reg 32 1
reg 35 1
mem 0 124
mem 4 56
mem 8 8
mem 12 8
mem 16 20
mem 20 64
mem 24 88
mem 28 84
mem 32 44
mem 36 116
blocks 2
?run --code:done>running l0
mem 0 124
mem 4 56
mem 8 8
mem 12 8
mem 16 20
mem 20 64
mem 24 88
mem 28 84
mem 32 44
mem 36 116
cycles 2
>\
|frame 0
block l0
{ nop }
{ r16 = xor(r1,r2); r2 = memw(r0+#32); p0 = cmp.eq(r6,r16) }
{ nop }
{ r3 = xor(r3,r31); r6 = r6; p1 = cmp.gt(r1,#39); if (!p1.new) jump l1 }
block l1
{ r16 = mux(p0,r31,r2); r2 = and(r1,#10); jump l0 }
block l2
{ p1 = cmp.gtu(r2,r2); if (!p1.new) jump l0 }
block l3
{ r2 = or(r16,r31); jumpr r3 }
---
reg 0 52
reg 1 116
reg 2 84
reg 3 64
reg 4 68
reg 5 2147483648
reg 6 84
reg 7 68
reg 8 132
reg 10 108
reg 11 2147483648
reg 12 92
reg 13 116
reg 14 2147483648
reg 15 76
reg 16 2147483648
reg 17 140
reg 18 48
reg 19 52
reg 20 148
reg 21 68
reg 22 96
reg 23 152
reg 24 4
reg 25 148
reg 26 108
reg 27 100
reg 28 156
reg 30 128
reg 31 66
reg 34 1
mem 0 133
mem 4 4294967292
mem 8 4294967295
mem 12 255
mem 16 108
mem 20 156
mem 24 1
mem 28 40
mem 32 3496586632
reply 255
junk 1 2614622616
junk 2 2136434540
junk 3 4252984200
junk 4 4215941972
junk 5 231451752
blocks 2
?run --code:done>trapped
mem 0 133
mem 4 4294967292
mem 8 4294967295
mem 12 255
mem 16 108
mem 20 156
mem 24 1
mem 28 40
mem 32 3496586632
cycles 1
>\
|frame 0
block l0
{ r31 = asr(r6,#26); p0 = cmp.eq(r31,#68) }
{ nop }
{ if (!p0) jump l3 }
block l1
{ p1 = cmp.gt(r3,r0); p0 = cmp.eq(r3,r16); if (!p1.new) jump l2 }
block l2
{ nop }
block l3
{ r31 = add(r1,r6) }
{ r6 = asl(r1,#0) }
{ r3 = mpyi(r3,r3); jumpr r2 }
---
reg 0 48
reg 1 2147483647
reg 2 136
reg 3 100
reg 6 36
reg 7 100
reg 8 12
reg 9 56
reg 10 92
reg 11 49
reg 12 71
reg 13 136
reg 14 132
reg 15 20
reg 16 56
reg 17 156
reg 18 156
reg 19 68
reg 20 84
reg 21 76
reg 22 16
reg 23 28
reg 24 28
reg 25 152
reg 26 12
reg 27 43
reg 28 24
reg 29 4000
reg 30 96
reg 31 91
reg 33 1
reg 35 1
mem 0 92
mem 4 68
mem 8 64
mem 12 24
mem 16 88
mem 20 2147483648
mem 24 48
mem 28 104
mem 32 40
mem 36 24
reply 1
reply 36
blocks 1
?run --code:done>running l3
mem 0 92
mem 4 68
mem 8 64
mem 12 24
mem 16 88
mem 20 2147483648
mem 24 48
mem 28 104
mem 32 40
mem 36 24
cycles 3
>\
|frame 16
block l0
{ r29 = add(r29,#16) }
{ r3 = add(r1,#65) }
{ r3 = memw(r29+#12); p1 = cmp.eq(r1,r31) }
{ r3 = and(r0,r0); jump l0 }
block l1
{ r2 = memw(r29+#4); r1 = mux(p1,r0,r2); r16 = memw(r29+#16) }
{ r29 = add(r29,#-16); p0 = cmp.eq(r0,r6); if (p0.new) jump l1 }
block l2
{ nop }
{ r29 = add(r29,#16); call f() }
{ p0 = cmp.gt(r1,r0); r2 = mpyi(r6,r31); r16 = or(r6,r1); jumpr r2 }
block l3
{ r6 = add(r1,#62); jumpr r3 }
---
reg 0 124
reg 1 32
reg 2 138
reg 3 72
reg 4 153
reg 5 44
reg 6 72
reg 7 52
reg 8 116
reg 9 152
reg 10 36
reg 11 48
reg 12 44
reg 13 72
reg 14 8
reg 15 2147483648
reg 16 16
reg 17 76
reg 18 76
reg 19 2147483647
reg 20 36
reg 21 52
reg 22 58
reg 23 8
reg 24 12
reg 25 140
reg 26 72
reg 27 128
reg 28 54
reg 29 312
reg 30 140
reg 31 136
reg 34 1
mem 4 4294967292
mem 8 112
mem 16 16
mem 20 4294967292
mem 28 4294967295
mem 32 68
mem 36 96
reply 48
blocks 1
?run --code:done>trapped
mem 4 4294967292
mem 8 112
mem 16 16
mem 20 4294967292
mem 28 4294967295
mem 32 68
mem 36 96
cycles 2
>\
|frame 8
block l0
{ p0 = r3 }
{ r31 = r16; p1 = cmp.eq(r31,r16) }
block l1
{ nop }
{ nop }
{ r16 = mux(p0,r16,r31); p0 = cmp.eq(r31,#66); r1 = lsr(r2,#22); if (!p0.new) jump l2 }
block l2
{ nop }
{ jumpr r1 }
---
reg 0 36
reg 1 24
reg 2 140
reg 3 148
reg 4 56
reg 5 26
reg 6 28
reg 7 21
reg 8 128
reg 9 32
reg 10 44
reg 11 124
reg 12 2147483647
reg 13 100
reg 14 24
reg 15 128
reg 16 4294967292
reg 17 156
reg 18 80
reg 19 255
reg 20 4294967295
reg 21 44
reg 22 2147483648
reg 23 130
reg 24 36
reg 25 24
reg 26 4
reg 27 2
reg 28 100
reg 29 8
reg 30 112
reg 31 148
reg 33 1
mem 4 4294967292
mem 20 72
mem 24 128
mem 28 148
mem 32 28
mem 36 112
reply 4294967292
junk 1 247495838
junk 2 1421311002
junk 3 918139082
junk 4 1960440094
junk 5 1541431543
reply 84
blocks 6
?run --code:done>returned 36 target 0
mem 4 4294967292
mem 20 72
mem 24 128
mem 28 148
mem 32 28
mem 36 112
cycles 7
>\
|frame 8
block l0
{ nop }
{ r0 = #53; memw(r1+#92) = r1 }
{ p0 = cmp.gtu(r2,r1); r0 = add(r2,r16); if (p0.new) jump l1 }
block l1
{ r3 = lsr(r3,#30) }
{ r29 = add(r29,#8) }
{ p0 = cmp.gtu(r1,r6) }
{ r6 = p1 }
{ p1 = cmp.eq(r3,#75); r0 = xor(r3,r3); if (p1) jump l1 }
block l2
{ nop }
block l3
{ r2 = mpyi(r2,r31); r0 = add(r6,#20) }
{ memw(r16+#108) = r0; r6 = memw(r16+#160); jumpr r3 }
---
reg 0 2147483647
reg 1 2147483647
reg 2 72
reg 3 140
reg 5 132
reg 6 255
reg 7 64
reg 8 255
reg 9 148
reg 10 3596432657
reg 11 61
reg 12 255
reg 13 68
reg 14 40
reg 15 100
reg 16 48
reg 17 112
reg 18 140
reg 19 116
reg 20 12
reg 21 152
reg 22 124
reg 23 88
reg 24 92
reg 25 2147483647
reg 26 28
reg 27 2147483648
reg 28 56
reg 29 8
reg 30 4294967292
reg 31 4294967292
mem 0 28
mem 4 84
mem 8 4294967295
mem 12 255
mem 16 255
mem 20 2147483647
mem 24 116
mem 28 104
mem 32 72
mem 36 36
reply 112
set 8 108
blocks 1
?run --code:done>trapped
mem 0 28
mem 4 84
mem 8 4294967295
mem 12 255
mem 16 255
mem 20 2147483647
mem 24 116
mem 28 104
mem 32 72
mem 36 36
cycles 1
>\
|frame 0
block l0
{ r31 = add(r0,#0) }
{ r2 = sub(r1,r1); r6 = memw(r1+#144) }
{ p1 = cmp.eq(r1,r3) }
{ r16 = #65; p0 = cmp.gt(r1,#46) }
{ p0 = cmp.eq(r3,#28); r2 = add(r1,r6); if (!p0.new) jump l1 }
block l1
{ nop }
{ r2 = p1 }
{ nop }
{ r3 = mux(p0,r3,r2) }
block l2
{ memw(r29+#0) = r0; r16 = add(r2,r6) }
{ p1 = cmp.gt(r3,#62); r6 = memw(r29+#4); r16 = p0 }
{ r3 = and(r0,#73); r16 = and(r0,r1) }
block l3
{ nop }
{ nop }
{ jump l1 }
---
reg 0 16
reg 1 72
reg 2 92
reg 3 24
reg 4 152
reg 5 108
reg 6 152
reg 7 103
reg 8 132
reg 9 32
reg 10 96
reg 11 152
reg 12 44
reg 13 64
reg 14 44
reg 15 4294967292
reg 16 88
reg 17 136
reg 18 12
reg 19 16
reg 20 160
reg 21 2147483647
reg 22 4294967295
reg 23 33
reg 24 112
reg 25 4294967292
reg 26 80
reg 27 2147483647
reg 28 36
reg 29 8
reg 30 136
reg 31 12
reg 33 1
reg 34 1
mem 0 128
mem 4 88
mem 8 12
mem 12 8
mem 16 36
mem 20 44
mem 24 144
mem 28 40
mem 32 140
mem 36 2147483648
reply 32
set 12 60
junk 1 3345470546
junk 2 4130797737
junk 3 2416701560
junk 4 1478735599
junk 5 613765571
reply 4
blocks 1
?run --code:done>trapped
mem 0 128
mem 4 88
mem 8 12
mem 12 8
mem 16 36
mem 20 44
mem 24 144
mem 28 40
mem 32 140
mem 36 2147483648
cycles 1
>\
|frame 16
block l0
{ nop }
{ p0 = cmp.gtu(r0,r6); r3 = mpyi(r1,r31); memw(r2+#152) = r0 }
{ r16 = and(r3,r6); memw(r31+#52) = r0 }
{ call f() }
{ memw(r29+#0) = r3; p0 = cmp.eq(r16,r6); if (p0.new) jump l0 }
block l1
{ nop }
{ nop }
{ jump l0 }
---
reg 0 112
reg 1 8
reg 2 92
reg 3 4294967292
reg 4 1219075280
reg 5 100
reg 6 68
reg 7 8
reg 8 2147483647
reg 9 4294967295
reg 10 4294967295
reg 11 120
reg 12 76
reg 14 24
reg 15 44
reg 16 8
reg 17 108
reg 18 24
reg 19 104
reg 20 2
reg 21 148
reg 22 4
reg 23 36
reg 24 136
reg 25 28
reg 26 156
reg 27 104
reg 28 4294967292
reg 29 2808
reg 30 28
reg 32 1
reg 33 1
reg 34 1
reg 35 1
mem 0 12
mem 4 36
mem 8 255
mem 12 4
mem 16 56
mem 20 40
mem 24 112
mem 28 1
mem 32 20
mem 36 140
reply 140
junk 1 1481617488
junk 2 2632118100
junk 3 3658123362
junk 4 3305828423
junk 5 226491550
reply 136
set 12 32
blocks 3
?run --code:done>trapped
mem 0 12
mem 4 36
mem 8 255
mem 12 4
mem 16 56
mem 20 40
mem 24 112
mem 28 1
mem 32 20
mem 36 140
cycles 1
>\
|frame 8
block l0
{ r0 = memw(r2+#100); p0 = cmp.gtu(r3,r3); memw(r29+#4) = r1 }
{ r1 = add(r3,#27); r3 = sub(r31,r31); r0 = add(r2,r16) }
{ r0 = memw(r31+#152); r2 = lsr(r1,#9); p0 = cmp.gtu(r31,r6); if (p0.new) jump l0 }
block l1
{ memw(r29+#4) = r1 }
{ p1 = cmp.eq(r0,r0) }
{ memw(r2+#60) = r0; p0 = cmp.gtu(r3,r3) }
{ r16 = and(r2,#15) }
{ jumpr r1 }
---
reg 0 52
reg 1 44
reg 2 2
reg 3 88
reg 4 80
reg 5 60
reg 6 40
reg 7 2
reg 8 112
reg 9 88
reg 10 80
reg 11 4
reg 12 40
reg 13 44
reg 14 24
reg 15 160
reg 16 2147483647
reg 17 68
reg 18 4
reg 19 56
reg 20 60
reg 21 4294967295
reg 22 140
reg 23 140
reg 24 11
reg 25 32
reg 26 238398439
reg 27 16
reg 28 76
reg 29 8
reg 30 76
reg 31 52
reg 33 1
reg 34 1
reg 35 1
mem 0 76
mem 4 4
mem 8 112
mem 12 183
mem 16 72
mem 20 128
mem 24 1
mem 28 56
mem 32 136
mem 36 12
reply 2
junk 1 3511526927
junk 2 3448696184
junk 3 2776215361
junk 4 4166984933
junk 5 1755259968
blocks 1
?run --code:done>trapped
mem 0 76
mem 4 4
mem 8 112
mem 12 183
mem 16 72
mem 20 128
mem 24 1
mem 28 56
mem 32 136
mem 36 12
cycles 0
>\
|frame 16
block l0
{ r6 = add(r6,r6); r3 = r3; r1 = r1 }
{ r31 = and(r31,r0); p0 = cmp.gt(r0,r6); p1 = cmp.gt(r31,#32); if (p1.new) jump l1 }
block l1
{ nop }
{ memw(r29+#16) = r1 }
{ memw(r16+#4) = r2 }
{ jump l1 }
---
reg 0 8
reg 1 68
reg 2 140
reg 3 132
reg 4 115
reg 5 60
reg 6 74
reg 7 56
reg 8 112
reg 10 72
reg 11 4
reg 12 92
reg 13 128
reg 14 112
reg 15 152
reg 16 136
reg 17 61
reg 18 36
reg 19 116
reg 20 20
reg 22 80
reg 23 68
reg 24 62
reg 25 120
reg 26 88
reg 27 4
reg 28 148
reg 29 5952
reg 30 40
reg 31 255
reg 32 1
reg 35 1
mem 0 40
mem 4 255
mem 8 15
mem 12 100
mem 16 160
mem 20 0
mem 24 104
mem 28 184
mem 32 132
mem 36 32
reply 144
junk 1 2424978516
junk 2 2055766551
junk 3 1246391909
junk 4 2272293106
junk 5 2271046655
reply 1
junk 1 4205145290
junk 2 1332231737
junk 3 3691901200
junk 4 1026387767
junk 5 1394740034
blocks 2
?run --code:done>trapped
mem 0 40
mem 4 255
mem 8 15
mem 12 100
mem 16 160
mem 20 0
mem 24 104
mem 28 184
mem 32 132
mem 36 32
cycles 3
>\
|frame 8
block l0
{ nop }
{ p0 = cmp.gt(r1,r31); if (p0.new) jump l3 }
block l1
{ r16 = memw(r6+#56); p1 = cmp.eq(r1,r3) }
{ nop }
{ p1 = cmp.gtu(r1,r0) }
{ r6 = sub(r6,r2); memw(r29+#8) = r6 }
{ p1 = cmp.eq(r0,#1); r3 = mux(p1,r3,r31); if (!p1.new) jump l3 }
block l2
{ r6 = asl(r16,#17) }
{ call f(r0,r1) }
{ nop }
{ p1 = cmp.gt(r2,#1); r16 = #27; r6 = and(r2,r6) }
{ jump l2 }
block l3
{ jumpr r31 }
---
reg 0 156
reg 1 116
reg 2 196
reg 3 52
reg 4 4
reg 5 2147483648
reg 6 255
reg 7 64
reg 8 2147483647
reg 9 96
reg 10 92
reg 11 160
reg 12 255
reg 13 48
reg 14 148
reg 15 2147483648
reg 16 4
reg 17 88
reg 18 52
reg 19 36
reg 20 48
reg 21 16
reg 22 52
reg 23 128
reg 24 48
reg 25 114
reg 26 136
reg 27 20
reg 28 24
reg 29 4008
reg 30 140
reg 31 120
reg 34 1
reg 35 1
mem 0 160
mem 4 2705460973
mem 8 121
mem 12 152
mem 16 2147483648
mem 20 56
mem 24 92
mem 28 40
mem 32 152
mem 36 124
reply 30
junk 1 2248037226
junk 2 2251632036
junk 3 1941288911
junk 4 1295787746
junk 5 2737724533
reply 2147483647
blocks 1
?run --code:done>running l1
mem 0 160
mem 4 2705460973
mem 8 121
mem 12 152
mem 16 2147483648
mem 20 56
mem 24 92
mem 28 40
mem 32 152
mem 36 124
cycles 2
>\
|frame 0
block l0
{ nop }
{ r6 = or(r31,r1); p0 = cmp.eq(r16,r6); r1 = memw(r1+#4) }
{ r3 = xor(r1,r3) }
{ r6 = mux(p1,r3,r2) }
{ p1 = cmp.eq(r31,#44); memw(r29+#0) = r16; r3 = r2; if (!p1.new) jump l1 }
block l1
{ r6 = r6; call f(r0,r1) }
{ r31 = memw(r31+#68); r0 = asl(r2,#22) }
block l2
{ p0 = cmp.gt(r3,#9) }
{ r6 = memw(r29+#4) }
{ r2 = add(r1,r31); r6 = p0 }
block l3
{ p0 = cmp.gt(r31,r16) }
{ nop }
{ nop }
{ r3 = memw(r29+#0); jumpr r0 }
---
reg 0 4294967295
reg 1 104
reg 2 184
reg 3 32
reg 4 68
reg 5 2
reg 6 108
reg 8 8
reg 9 2147483647
reg 10 4
reg 11 4294967292
reg 12 140
reg 13 64
reg 14 255
reg 15 88
reg 16 76
reg 17 116
reg 18 84
reg 19 4
reg 20 60
reg 21 156
reg 22 108
reg 23 80
reg 24 48
reg 25 60
reg 27 189
reg 28 128
reg 29 3576
reg 30 180
reg 31 104
reg 32 1
reg 33 1
reg 34 1
reg 35 1
mem 0 48
mem 4 255
mem 8 44
mem 12 56
mem 16 8
mem 20 152
mem 24 72
mem 28 76
mem 32 156
mem 36 1024145841
reply 60
junk 1 4194274381
junk 2 3165583480
junk 3 946313826
junk 4 1013478406
junk 5 688167220
reply 4294967295
blocks 6
?run --code:done>trapped
mem 0 48
mem 4 255
mem 8 44
mem 12 56
mem 16 8
mem 20 152
mem 24 72
mem 28 76
mem 32 156
mem 36 1024145841
cycles 1
>\
|frame 0
block l0
{ r6 = add(r2,r2); r1 = r0; p0 = cmp.gtu(r6,r16); if (!p0.new) jump l0 }
block l1
{ r0 = add(r16,r2) }
{ nop }
{ r31 = asr(r16,#19); p0 = r6 }
{ r6 = add(r31,#77); jumpr r1 }
---
reg 0 20
reg 1 16
reg 2 152
reg 3 92
reg 5 148
reg 6 19566024
reg 8 48
reg 9 88
reg 10 8
reg 11 40
reg 12 8
reg 13 4
reg 14 108
reg 15 9
reg 16 96
reg 17 141
reg 18 120
reg 19 32
reg 20 2
reg 21 128
reg 22 2147483648
reg 23 92
reg 25 163
reg 26 28
reg 27 32
reg 29 8
reg 30 84
reg 31 104
reg 32 1
reg 34 1
reg 35 1
mem 0 92
mem 4 8
mem 8 2147483648
mem 12 136
mem 16 16
mem 20 132
mem 24 39
mem 28 140
mem 32 120
mem 36 160
reply 156
junk 1 3104913283
junk 2 35203573
junk 3 1550845072
junk 4 2830789747
junk 5 1559806480
reply 140
junk 1 2104744629
junk 2 179594097
junk 3 3076184883
junk 4 1035299792
junk 5 1204688387
blocks 1
?run --code:done>running l1
mem 0 92
mem 4 8
mem 8 2147483648
mem 12 136
mem 16 16
mem 20 132
mem 24 39
mem 28 140
mem 32 120
mem 36 160
cycles 1
>\
|frame 0
block l0
{ r2 = asr(r0,#24) }
{ nop }
{ nop }
{ nop }
{ r16 = p0; r3 = add(r3,#40); p0 = cmp.gtu(r2,r31); if (p0.new) jump l0 }
block l1
{ nop }
{ nop }
{ r3 = r1; r16 = sub(r0,r3); p0 = cmp.eq(r16,r3); jumpr r1 }
---
reg 0 120
reg 1 2147483647
reg 2 124
reg 3 40
reg 4 68
reg 5 124
reg 6 4294967292
reg 7 160
reg 8 136
reg 9 136
reg 10 24
reg 11 80
reg 12 80
reg 13 132
reg 14 48
reg 15 104
reg 16 32
reg 17 2147483647
reg 18 4
reg 19 12
reg 20 80
reg 21 109
reg 22 124
reg 23 36
reg 24 88
reg 25 152
reg 26 40
reg 27 124
reg 28 36
reg 30 132
reg 31 24
reg 32 1
reg 33 1
mem 0 68
mem 4 24
mem 8 68
mem 12 20
mem 16 2274087644
mem 20 0
mem 24 44
mem 28 112
mem 32 36
mem 36 60
reply 4294967292
junk 1 3136167445
junk 2 3000485004
junk 3 3081507714
junk 4 1829153525
junk 5 2446436722
blocks 2
?run --code:done>returned 120 target 2147483647
mem 0 68
mem 4 24
mem 8 68
mem 12 20
mem 16 2274087644
mem 20 0
mem 24 44
mem 28 112
mem 32 36
mem 36 60
cycles 8
>\
|frame 16
block l0
{ r31 = or(r16,r16) }
{ p1 = cmp.eq(r0,r3); jumpr r3 }
block l1
{ r2 = #44; if (!p0) jump l0 }
block l2
{ r2 = or(r31,#6); p1 = cmp.gtu(r1,r6); p0 = cmp.gt(r6,#4) }
{ p0 = cmp.gtu(r0,r6) }
{ p0 = cmp.eq(r2,r31); r2 = xor(r2,r31); r31 = memw(r16+#28) }
{ nop }
{ r3 = memw(r16+#44); p0 = cmp.eq(r16,#79); r6 = add(r0,#37); if (!p0.new) jump l1 }
block l3
{ nop }
{ nop }
{ nop }
{ r6 = memw(r31+#124) }
{ r6 = mpyi(r0,r1); jumpr r2 }
---
reg 0 68
reg 1 124
reg 2 140
reg 3 2147483647
reg 4 24
reg 5 150
reg 6 104
reg 7 80
reg 8 4294967292
reg 9 80
reg 10 140
reg 11 36
reg 12 2220028325
reg 13 92
reg 14 16
reg 15 132
reg 16 56
reg 17 32
reg 18 160
reg 19 8
reg 20 24
reg 21 4294967292
reg 22 2
reg 23 44
reg 24 40
reg 25 120
reg 26 5
reg 27 160
reg 28 158
reg 29 16
reg 30 140
reg 31 168
reg 35 1
mem 0 141
mem 8 100
mem 12 152
mem 16 64
mem 20 24
mem 24 16
mem 28 4
mem 32 148
mem 36 40
reply 128
junk 1 1523542048
junk 2 2968905880
junk 3 3554344117
junk 4 671589609
junk 5 1711234917
reply 96
junk 1 267517747
junk 2 3072704851
junk 3 2485025508
junk 4 2552136241
junk 5 3701420375
blocks 1
?run --code:done>returned 68 target 2147483647
mem 0 141
mem 8 100
mem 12 152
mem 16 64
mem 20 24
mem 24 16
mem 28 4
mem 32 148
mem 36 40
cycles 2
>\
|frame 8
block l0
{ p1 = cmp.gt(r3,r2) }
{ nop }
{ call f(r0,r1) }
{ memw(r31+#24) = r1; p0 = cmp.gt(r0,r31); r0 = add(r6,r0); if (p0.new) jump l0 }
block l1
{ p1 = r2; r16 = mpyi(r31,r0) }
{ nop }
{ nop }
{ r3 = mux(p0,r2,r31); p1 = cmp.gt(r1,r3); r2 = asl(r2,#30); if (!p1.new) jump l1 }
block l2
{ r16 = lsr(r6,#17) }
{ r31 = mux(p0,r31,r6); jumpr r1 }
---
reg 0 2147483648
reg 1 72
reg 2 76
reg 3 48
reg 4 52
reg 5 108
reg 7 164
reg 8 92
reg 9 4294967292
reg 10 156
reg 11 101
reg 12 144
reg 13 32
reg 14 20
reg 15 156
reg 16 142
reg 18 152
reg 19 136
reg 20 20
reg 21 20
reg 22 140
reg 23 128
reg 24 124
reg 25 72
reg 26 1487700027
reg 27 72
reg 28 92
reg 29 4008
reg 30 36
reg 31 104
reg 33 1
reg 35 1
mem 0 140
mem 4 104
mem 8 177
mem 12 136
mem 16 160
mem 20 4294967295
mem 24 156
mem 28 56
mem 32 84
mem 36 28
reply 20
junk 1 2124677249
junk 2 3857481066
junk 3 2498686876
junk 4 2361849532
junk 5 643968665
reply 1
junk 1 3268337382
junk 2 112844274
junk 3 2049739790
junk 4 2417071699
junk 5 1769038241
blocks 3
?run --code:done>waiting f 1 3268337382
call f 2147483648 72
call f 20 2124677249
mem 0 140
mem 4 104
mem 8 177
mem 12 136
mem 16 160
mem 20 4294967295
mem 24 3268337382
mem 28 56
mem 32 84
mem 36 28
cycles 10
>\
|frame 8
block l0
{ r31 = xor(r2,r1); p1 = cmp.eq(r31,#58) }
{ nop }
{ p1 = cmp.gtu(r3,r3); p0 = cmp.gt(r0,r31); if (!p1.new) jump l0 }
block l1
{ r0 = r0; p0 = cmp.eq(r6,#-8); r31 = #23 }
{ r6 = r6; r29 = add(r29,#-8); r31 = r31; jump l1 }
---
reg 0 148
reg 1 40
reg 2 44
reg 3 44
reg 4 148
reg 5 128
reg 6 80
reg 7 2072341563
reg 8 73
reg 9 32
reg 10 76
reg 11 72
reg 12 1
reg 13 4077347597
reg 14 1
reg 15 2147483647
reg 16 88
reg 17 112
reg 18 104
reg 19 68
reg 20 72
reg 21 132
reg 22 24
reg 23 36
reg 24 100
reg 25 124
reg 26 108
reg 27 76
reg 28 76
reg 29 4008
reg 30 44
reg 31 4
reg 33 1
reg 35 1
mem 0 156
mem 4 28
mem 8 1
mem 12 108
mem 16 0
mem 20 144
mem 24 6
mem 28 4294967295
mem 32 56
mem 36 140
reply 4294967292
junk 1 52501738
junk 2 3638510426
junk 3 3057349852
junk 4 2971681677
junk 5 1493140790
reply 0
set 12 8
junk 1 787539313
junk 2 324962368
junk 3 2046252241
junk 4 1677843790
junk 5 725102001
blocks 1
?run --code:done>running l0
mem 0 156
mem 4 28
mem 8 1
mem 12 108
mem 16 0
mem 20 144
mem 24 6
mem 28 4294967295
mem 32 56
mem 36 140
cycles 3
>\
|frame 16
block l0
{ r16 = or(r16,r0); call f(r0,r1) }
{ jumpr r0 }
block l1
{ p1 = cmp.eq(r31,#9); r2 = xor(r6,r6) }
{ r31 = memw(r6+#24) }
{ r31 = sub(r31,r3); memw(r29+#16) = r1; r6 = lsr(r31,#0) }
{ p0 = cmp.gtu(r16,r6); r31 = asr(r3,#23); if (p0.new) jump l2 }
block l2
{ r29 = add(r29,#-16); r16 = or(r1,#26) }
{ r29 = add(r29,#16); r0 = memw(r1+#80); r1 = or(r16,#58) }
block l3
{ r0 = and(r0,r6); r29 = add(r29,#16); r1 = and(r3,r1); jumpr r6 }
---
reg 0 255
reg 1 132
reg 2 1950028206
reg 3 148
reg 4 47
reg 5 8
reg 6 255
reg 7 154
reg 8 24
reg 9 116
reg 10 132
reg 11 116
reg 12 88
reg 13 2
reg 14 112
reg 15 72
reg 16 148
reg 17 1
reg 18 16
reg 19 68
reg 20 112
reg 21 120
reg 22 156
reg 23 121
reg 24 116
reg 26 72
reg 27 8
reg 28 4294967292
reg 29 4016
reg 30 151
reg 31 40
reg 34 1
reg 35 1
mem 0 104
mem 4 144
mem 8 124
mem 12 1
mem 16 156
mem 20 56
mem 24 104
mem 28 95
mem 32 84
mem 36 68
reply 4
reply 28
junk 1 286491251
junk 2 3009144793
junk 3 212707416
junk 4 736309070
junk 5 2010444015
blocks 6
?run --code:done>returned 4 target 4
call f 255 132
mem 0 104
mem 4 144
mem 8 124
mem 12 1
mem 16 156
mem 20 56
mem 24 104
mem 28 95
mem 32 84
mem 36 68
cycles 2
>\
|frame 8
block l0
{ r1 = or(r2,#26) }
{ nop }
{ p0 = cmp.gt(r6,r6); p1 = cmp.gt(r3,r16); if (!p0.new) jump l0 }
block l1
{ r1 = and(r31,#48) }
{ nop }
{ r1 = memw(r29+#4); r16 = sub(r31,r31); r31 = memw(r0+#44); jumpr r31 }
---
reg 0 104
reg 1 72
reg 2 1262449024
reg 3 2
reg 4 80
reg 5 2147483648
reg 6 88
reg 7 84
reg 8 2
reg 9 255
reg 10 151
reg 11 136
reg 12 128
reg 13 48
reg 14 12
reg 15 24
reg 16 4294967292
reg 17 20
reg 18 159
reg 19 160
reg 20 128
reg 21 20
reg 22 4
reg 24 48
reg 25 120
reg 27 72
reg 28 56
reg 29 5672
reg 30 24
reg 31 68
reg 32 1
reg 33 1
reg 35 1
mem 0 44
mem 4 92
mem 8 41
mem 12 543791010
mem 16 82
mem 20 181
mem 24 4294967295
mem 28 2147483648
mem 32 8
mem 36 76
reply 20
junk 1 2357022568
junk 2 952376421
junk 3 3844978223
junk 4 1791296906
junk 5 183095864
reply 36
blocks 1
?run --code:done>running l0
mem 0 44
mem 4 92
mem 8 41
mem 12 543791010
mem 16 82
mem 20 181
mem 24 4294967295
mem 28 2147483648
mem 32 8
mem 36 76
cycles 3
>\
|frame 16
block l0
{ p0 = cmp.gt(r0,r1) }
{ nop }
{ nop }
{ p0 = cmp.gt(r3,#4); r16 = xor(r16,r16); if (!p0.new) jump l0 }
block l1
{ nop }
{ memw(r29+#8) = r3; p1 = cmp.eq(r31,r6); r1 = add(r6,r31); if (p1) jump l0 }
block l2
{ r16 = memw(r2+#44) }
{ memw(r1+#0) = r2; r6 = lsr(r0,#9) }
{ nop }
{ memw(r29+#12) = r16; p1 = cmp.eq(r16,#71); jump l1 }
block l3
{ jump l1 }
---
reg 0 140
reg 1 8
reg 2 60
reg 3 127
reg 4 4294967295
reg 5 100
reg 6 84
reg 7 96
reg 8 36
reg 9 160
reg 10 120
reg 11 255
reg 12 160
reg 13 4294967292
reg 14 52
reg 15 68
reg 17 136
reg 18 132
reg 19 112
reg 21 44
reg 22 32
reg 23 96
reg 24 116
reg 25 39
reg 26 12
reg 27 2747433568
reg 28 116
reg 29 16
reg 30 160
reg 31 131
reg 34 1
reg 35 1
mem 0 58
mem 4 32
mem 8 160
mem 12 2147483648
mem 16 160
mem 20 163
mem 24 24
mem 28 32
mem 32 2243809947
mem 36 4294967295
blocks 1
?run --code:done>running l1
mem 0 58
mem 4 32
mem 8 160
mem 12 2147483648
mem 16 160
mem 20 163
mem 24 24
mem 28 32
mem 32 2243809947
mem 36 4294967295
cycles 4
>\
|frame 16
block l0
{ nop }
{ r31 = and(r16,#41); jumpr r16 }
block l1
{ r1 = memw(r29+#4); r0 = mux(p0,r31,r0) }
{ r2 = xor(r0,r0); r31 = asr(r1,#29); p1 = cmp.gt(r1,#19) }
{ p1 = cmp.eq(r0,r16); memw(r3+#88) = r1; if (p1.new) jump l0 }
block l2
{ r1 = add(r3,r3); jumpr r3 }
---
reg 0 12
reg 1 1
reg 2 56
reg 3 108
reg 4 4294967295
reg 5 73
reg 6 1431421829
reg 7 92
reg 8 48
reg 9 57
reg 10 92
reg 11 1
reg 12 96
reg 13 156
reg 14 60
reg 15 136
reg 16 120
reg 17 128
reg 18 113
reg 19 132
reg 20 1
reg 21 28
reg 22 148
reg 23 100
reg 24 88
reg 25 128
reg 26 84
reg 27 124
reg 28 4294967292
reg 29 16
reg 30 132
reg 31 12
reg 34 1
mem 0 84
mem 4 4
mem 8 116
mem 12 8
mem 16 160
mem 20 96
mem 24 144
mem 28 140
mem 32 80
mem 36 112
blocks 3
?run --code:done>returned 12 target 120
mem 0 84
mem 4 4
mem 8 116
mem 12 8
mem 16 160
mem 20 96
mem 24 144
mem 28 140
mem 32 80
mem 36 112
cycles 2
>\
|frame 0
block l0
{ r1 = add(r2,r2); p0 = cmp.eq(r0,#56) }
{ r0 = p0 }
{ r6 = xor(r6,r0); jump l3 }
block l1
{ memw(r29+#0) = r0; r1 = p1; r16 = mpyi(r2,r2) }
{ r3 = p1 }
{ call f(r0,r1) }
{ nop }
{ memw(r31+#72) = r6; r3 = #29; p1 = cmp.gtu(r31,r2); if (p1.new) jump l2 }
block l2
{ p1 = cmp.gt(r2,r31); r6 = mux(p1,r0,r1); jumpr r31 }
block l3
{ r2 = or(r2,#24); p0 = cmp.gt(r6,r31) }
{ p0 = r16 }
{ r2 = xor(r31,r31); p1 = cmp.gt(r2,r0) }
{ jumpr r0 }
---
reg 0 144
reg 1 108
reg 2 36
reg 3 68
reg 4 28
reg 5 16
reg 6 4294967292
reg 7 2147483647
reg 8 68
reg 9 56
reg 10 160
reg 11 171
reg 12 12
reg 13 52
reg 14 72
reg 15 160
reg 16 100
reg 17 1
reg 18 24
reg 19 50
reg 20 4294967295
reg 21 116
reg 22 164
reg 23 116
reg 24 124
reg 25 60
reg 27 140
reg 28 64
reg 30 4294967295
reg 31 138
reg 32 1
mem 0 50
mem 4 52
mem 28 98
mem 36 4294967295
reply 108
junk 1 4046633250
junk 2 2147683904
junk 3 2760678592
junk 4 1898102769
junk 5 2477545653
blocks 6
?run --code:done>returned 0 target 0
mem 0 50
mem 4 52
mem 28 98
mem 36 4294967295
cycles 7
>\
|frame 16
block l0
{ nop }
{ r2 = p1; p1 = cmp.eq(r1,r6); r31 = lsr(r6,#18) }
{ nop }
{ p1 = cmp.gtu(r6,r6); if (p1.new) jump l0 }
block l1
{ nop }
{ r1 = lsr(r2,#13); r29 = add(r29,#16); r31 = or(r16,r3); jumpr r16 }
block l2
{ r3 = and(r1,#62); r6 = add(r1,#-4); jumpr r6 }
---
reg 0 4
reg 1 84
reg 2 52
reg 3 140
reg 4 2147483647
reg 5 12
reg 6 124
reg 7 84
reg 8 186
reg 9 102
reg 10 255
reg 11 144
reg 12 140
reg 13 55
reg 14 100
reg 15 12
reg 16 91
reg 17 124
reg 18 16
reg 19 80
reg 20 36
reg 21 60
reg 22 136
reg 23 8
reg 24 20
reg 25 2147483647
reg 26 24
reg 27 76
reg 28 136
reg 29 24
reg 30 179
reg 31 100
reg 33 1
reg 34 1
reg 35 1
mem 0 144
mem 4 24
mem 8 8
mem 12 28
mem 16 1
mem 20 2
mem 24 60
mem 28 20
mem 32 255
mem 36 104
reply 3309863542
junk 1 1662764740
junk 2 3930097359
junk 3 1159919899
junk 4 2596014847
junk 5 1588794354
reply 152
junk 1 1058058062
junk 2 1967072083
junk 3 46066258
junk 4 2732951451
junk 5 3554863525
blocks 3
?run --code:done>returned 4 target 91
mem 0 144
mem 4 24
mem 8 8
mem 12 28
mem 16 1
mem 20 2
mem 24 60
mem 28 20
mem 32 255
mem 36 104
cycles 6
>\
|frame 0
block l0
{ nop }
{ p0 = r1; p1 = cmp.eq(r6,#36) }
{ nop }
{ r2 = xor(r0,r31); p1 = cmp.gt(r2,r2); if (p1.new) jump l1 }
block l1
{ nop }
{ nop }
{ jumpr r6 }
---
reg 0 48
reg 1 36
reg 2 104
reg 3 80
reg 4 255
reg 5 4294967292
reg 6 115
reg 7 128
reg 8 104
reg 9 28
reg 10 24
reg 11 38
reg 12 44
reg 13 48
reg 15 100
reg 16 48
reg 17 132
reg 18 89
reg 19 12
reg 21 2147483648
reg 22 120
reg 23 92
reg 24 36
reg 25 52
reg 26 33
reg 27 124
reg 28 124
reg 29 4744
reg 30 100
reg 31 76
reg 32 1
reg 33 1
reg 34 1
mem 0 140
mem 4 60
mem 8 58
mem 12 108
mem 16 68
mem 20 160
mem 24 1
mem 28 16
mem 32 116
mem 36 48
reply 120
junk 1 3586693414
junk 2 2030684455
junk 3 2533532257
junk 4 29576438
junk 5 4004566972
reply 11
junk 1 2338111586
junk 2 795605543
junk 3 2945364976
junk 4 1621329120
junk 5 1185091545
blocks 2
?run --code:done>returned 48 target 115
mem 0 140
mem 4 60
mem 8 58
mem 12 108
mem 16 68
mem 20 160
mem 24 1
mem 28 16
mem 32 116
mem 36 48
cycles 7
>\
|frame 0
block l0
{ nop }
{ r3 = asr(r0,#20) }
{ nop }
{ nop }
{ p1 = cmp.gt(r1,#67); if (!p1.new) jump l1 }
block l1
{ r1 = lsr(r1,#5); r2 = and(r6,#23); jumpr r0 }
---
reg 0 4
reg 1 92
reg 2 28
reg 3 108
reg 4 99
reg 5 72
reg 6 48
reg 7 1
reg 8 56
reg 9 100
reg 10 72
reg 11 92
reg 12 112
reg 13 88
reg 14 154
reg 15 148
reg 16 140
reg 17 28
reg 18 40
reg 19 40
reg 20 48
reg 21 4294967292
reg 22 114
reg 23 120
reg 24 160
reg 25 2
reg 26 140
reg 27 2
reg 28 44
reg 29 7608
reg 30 72
reg 31 124
reg 32 1
mem 0 108
mem 4 112
mem 8 20
mem 12 0
mem 16 4294967292
mem 20 4
mem 24 147
mem 28 52
mem 32 4294967295
mem 36 160
reply 12
reply 12
junk 1 3583312016
junk 2 3354482331
junk 3 3203743547
junk 4 955077598
junk 5 738189683
blocks 2
?run --code:done>returned 4 target 4
mem 0 108
mem 4 112
mem 8 20
mem 12 0
mem 16 4294967292
mem 20 4
mem 24 147
mem 28 52
mem 32 4294967295
mem 36 160
cycles 6
>\
|frame 16
block l0
block l1
{ call f(); r16 = add(r1,#27) }
{ r0 = asl(r1,#2) }
{ r3 = and(r31,#10) }
{ if (p1) jump l1 }
block l2
{ r29 = add(r29,#16); memw(r29+#12) = r31 }
{ r1 = asr(r16,#18); r31 = sub(r0,r3); p1 = cmp.gt(r16,r6); if (!p1.new) jump l2 }
block l3
{ nop }
{ jump l2 }
---
reg 0 156
reg 1 36
reg 2 28
reg 3 28
reg 4 76
reg 5 80
reg 6 64
reg 7 156
reg 8 2
reg 9 72
reg 10 88
reg 11 1
reg 12 84
reg 13 8
reg 14 52
reg 15 152
reg 17 24
reg 18 112
reg 19 88
reg 20 4
reg 21 44
reg 22 8
reg 23 2147483648
reg 24 84
reg 25 32
reg 26 80
reg 28 24
reg 29 16
reg 30 154
reg 31 160
reg 34 1
reg 35 1
mem 0 76
mem 4 64
mem 8 55
mem 12 148
mem 16 124
mem 20 52
mem 24 56
mem 28 148
mem 32 60
mem 36 4294967292
blocks 6
?run --code:done>waiting f
mem 0 76
mem 4 64
mem 8 55
mem 12 148
mem 16 124
mem 20 52
mem 24 56
mem 28 148
mem 32 60
mem 36 4294967292
cycles 0
>";

#[test]
fn fresh_predicates_run_as_wanted(rt: HostRuntime) {
    let wrong = wrong_row(rt.alloc(), RUNS);
    assert!(rt; wrong.is_empty(), "{wrong}");
}
