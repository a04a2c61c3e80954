//! Runs of functions, and what they come to: made by another program from the rules alone.

/// A run a way to end, with calls, accesses of memory and predicates among them.
pub(crate) static OUTSIDE: &[u8] = b"func rand
block b0 freq 10
  %v0 = imm #32
  %v0 = xor %v0, %v0
  %v0 = imm #-1
block b1 freq 1
  %v0 = call f0 %v0, %v0
  %v0 = call f0 %v0, %v0, %v0
  %v0 = or %v0, %v0
  %v0 = load %v0, #48
block b2 freq 1000
  %v0 = asr %v0, #20
  call f0 %v0, %v0, %v0, %v0, %v0, %v0
  %v0 = asl %v0, #21
  ret %v0
?run 2;12 32 20 1 132 140;0=76 4=52 8=8 12=8 16=12 20=24 24=108 28=4294967295 32=16 36=255 40=2147483647 44=52 4294967288=140 4294967292=128;40;112;72:trapped
call f0 4294967295 4294967295
call f0 40 40 40
mem 0 76
mem 4 52
mem 8 8
mem 12 8
mem 16 12
mem 20 24
mem 24 108
mem 28 4294967295
mem 32 16
mem 36 255
mem 40 2147483647
mem 44 52
mem 4294967288 140
mem 4294967292 128
|func rand
block b0 freq 2
  %v0 = imm #52
  %v1 = imm #88
  %v0 = call f2 %v0, %v1, %v0, %v1, %v1, %v1
  %v1 = lsr %v1, #22
  %v0 = asr %v1, #4
  %v1 = imm #23
  ret %v1
block b1 freq 1000
  %v1 = load %v1, #-4
  %v0 = and %v0, %v0
  %v1 = imm #152
  %v1 = addi %v0, #33
  jump b1
?run 40;40 0 32 116 9 156;0=100 8=16 12=120 20=72 28=148 36=140 40=120 52=132 56=156 68=124 72=72 80=32 584=56 596=40;20;136;24:returned 23
call f2 52 88 52 88 88 88
mem 0 100
mem 8 16
mem 12 120
mem 20 72
mem 28 148
mem 36 140
mem 40 120
mem 52 132
mem 56 156
mem 68 124
mem 72 72
mem 80 32
mem 584 56
mem 596 40
|func rand %v0
block b0 freq 1000
  %v1 = imm #52
  $p0 = cmpeq %v0, %v1
  $p1 = cmpeq %v0, %v1
  %v0 = call f1 %v0, %v0, %v0
  %v0 = sub %v0, %v0
  %v0 = load %v0, #20
  if $p1 jump b1
block b1 freq 10
  %v0 = ori %v0, #37
  store %v0, #16, %v0
  %v0 = andi %v0, #47
  jump b1
?run 1;255 100 68 152 124 4;0=4294967295 4=156 8=91 12=33 16=136 20=2 24=40 28=148 32=12 36=112 40=116 44=152 4294967288=12 4294967292=4294967295;52;72;44:running b1
value %v0 2
call f1 255 255 255
mem 0 4294967295
mem 4 156
mem 8 91
mem 12 33
mem 16 136
mem 20 2
mem 24 40
mem 28 148
mem 32 12
mem 36 112
mem 40 116
mem 44 152
mem 4294967288 12
mem 4294967292 4294967295
|func rand
block b0 freq 1000
  %v0 = imm #148
  %v0 = mov %v0
  call f2
  %v0 = add %v0, %v0
  ret %v0
?run 1;52 92 104 48 136 108;0=56 4=160 8=90 12=92 16=160 20=160 24=96 28=51 32=8 36=1 40=47 44=104 596=0 4294967292=148;52 596=132;56;25:returned 296
call f2
mem 0 56
mem 4 160
mem 8 90
mem 12 92
mem 16 160
mem 20 160
mem 24 96
mem 28 51
mem 32 8
mem 36 1
mem 40 47
mem 44 104
mem 596 132
mem 4294967292 148
|func rand %v0
block b0 freq 2
  %v1 = imm #116
  $p0 = cmpeq %v1, %v1
block b1 freq 2
  %v0 = asl %v0, #17
  %v1 = call f1 %v1, %v1, %v1, %v0, %v0, %v1
  $p0 = cmpgt %v1, %v1
  %v1 = add %v0, %v1
block b2 freq 1000
  ret
?run 1;2147483648 100 255 12 64 167;0=116 4=74 8=187 12=255 16=64 20=88 24=104 28=8 32=106 36=16 40=12 44=7 4294967288=16 4294967292=116;2147483647;132;48:running b1
value %v0 2147483648
value %v1 116
mem 0 116
mem 4 74
mem 8 187
mem 12 255
mem 16 64
mem 20 88
mem 24 104
mem 28 8
mem 32 106
mem 36 16
mem 40 12
mem 44 7
mem 4294967288 16
mem 4294967292 116
|func rand %v0
block b0 freq 1
  %v1 = imm #4
  %v2 = imm #4
  %v3 = imm #24
  $p0 = cmpeq %v0, %v0
  %v0 = add %v0, %v0
  %v0 = ori %v0, #19
  %v0 = addi %v0, #37
  if $p0 jump b1
block b1 freq 2
  if !$p0 jump b2
block b2 freq 1000
  %v0 = lsr %v0, #18
  %v0 = load %v0, #16
  %v0 = load %v0, #64
  ret %v0
?run 2;132 101 80 8 12 68;0=4 4=40 8=60 12=32 16=40 20=156 24=12 28=28 32=132 36=116 40=12 44=128 4294967288=124 4294967292=255;4294967295 32=16;144;40 8=4294967292:running b2
value %v0 320
mem 0 4
mem 4 40
mem 8 60
mem 12 32
mem 16 40
mem 20 156
mem 24 12
mem 28 28
mem 32 132
mem 36 116
mem 40 12
mem 44 128
mem 4294967288 124
mem 4294967292 255
|func rand %v0 %v1
block b0 freq 10
block b1 freq 10
  %v0 = call f0 %v0, %v1, %v1
block b2 freq 1000
  %v0 = add %v1, %v1
  $p1 = cmpeqi %v0, #259
  ret %v1
?run 2;93 255 40 40 76 36;8=88 12=57 16=0 20=80 24=20 28=148 36=2147483648 44=120 52=68 60=156 68=4294967292 72=4 592=56 4294967288=8:waiting f0 93 255 255
mem 8 88
mem 12 57
mem 16 0
mem 20 80
mem 24 20
mem 28 148
mem 36 2147483648
mem 44 120
mem 52 68
mem 60 156
mem 68 4294967292
mem 72 4
mem 592 56
mem 4294967288 8
";
