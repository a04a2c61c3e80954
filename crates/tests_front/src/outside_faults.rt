//! Texts that break one rule or several, with the line and the code of the first fault. An independent reading of the
//! input language gave them.

/// Texts, and their faults.
pub(crate) static OUTSIDE: &[u8] = b"f\x1b\x0c?fault:1 1\
|func rand\nblock\r?fault:2 1\
|func rand %v0 %v1\nblock b0 freq 2\nblock b0 freq \x11\n  %v?fault:3 1\
|func rand %v0\nblock b0 freq 1\n  %v1 = imm #88\n  %v2 = imm #8\n  store block\x18e freq 0?fault:5 1\
|func rand %v0\nblock b0 freq 10\n  $p0 = cmpeqi %v0, #29\n \x1d%v0 = load %v1, #56\n  store %v0, #32, %v?fault:4 1\
|jump e?fault:1 2\
|func rand %v\nfunc rand %v\nblock?fault:2 2\
|func rand %v0\nblock b0 freq 2\n  %v1 = imm #92\n  %v3 = #007 #24\n  %v3 = call f1 %v2, %v0, %v0, %v1, %v3, \x07v3\n ?fault:4 2\
|func rand %v0\nblock b0 freq 10\n  %v1 = imm #32\n  %v2 = imm #68 \n  %v3 = mm #28\n  $p0 = cmpeq %v0, %v1\n  $p1 = cmpeq %v0, %v3\n  %v0 = load %v0, ?fault:5 2\
|func rand %v0\nblock b0 freq 2\n  %v1 = im #12\n  %v2 = imm #112\n  %v3 = imm #40\n  %v2 = add %v0, %v3\n\n  %v2 = and %v0, %v1\n  store %v2, #32, %v3\n  ret\n?fault:3 2\
|func rand %v0\nblock b0 freq 1\n  %v1 = imm #76\n  %v2 = imm #40000\n  ?fault:4 3\
|func rand\nblock b0 freq 1000\n  %v0 = imm #40000\n  %v1 = imm #76 \n  %v2 = imm #100\n  %v3 = imm #0\n  $p0 = cmpeq %v0, %v3\n  $p1 = cmpeq %v0,?fault:3 3\
|func rand %v0\nblock b0 freq 10\n  %v0 = load %v0, #12\nblock b1 freq 2\n  %v0 = load %v0, #40000\n  %v0 = load %v0, #36\n  store %v0, #-3724, %v0\n  ret %v0\n?fault:5 3\
|func rand %v0 %v1\nblock b0 freq 10\n  %v2 = imm #76\n  %v3 = imm #72\n  $p0 = cmpeq %v0, %v0\n  store %v0, #6, %v1\n  %v0 = mux $p0 %v1, %v0\n  %v0 =asl %v1, #21\n  ret\nfunc rand %v0 %v1\n?fault:6 3\
|func rand\nblock b0 freq 1000\nblock b0 freq 1000\n  %v0 = imm #80\n  %v1 = imm #84\n  %v2 = imm #84?fault:3 4\
|func rand %v0 %v1 %v2\nblock b0 freq 1\n  ret %v2\nblock b1 freq 2\n  ret %v2\nblock b1 freq 2\n jump e ret %v2\nblock b2 freq ?fault:6 4\
|func rand %v0 %v1\nblock b0 freq 10\nblock b1 freq 2\n  store %v1, #1580, %v0\n  %v0 = load %v1, #24\n  store %v0, #40, %v0\n  %v0 = asl %v1, #12\n  ret %v0\nblock b0 freq 10\n?fault:9 4\
|func rand\nblock b0 freq 1\n  %v0 = imm #0\nblock b0 freq 1\n  %v1 = imm #4\n  call f2\n  store %v0, #-8, %v0\n  %v0 = load %v1, #24\n  store %v1, #56, %v1\n  store %v0, #-8, %v0\n  ret %v0\n?fault:4 4\
|func rand %v0 %v1\nblock b0 freq 1\n  %v1 = xor %v1, %v1\n  %v1 = load %v2, #40\nblock b1 freq 2\nblock b2 freq 1000 \n  %v1 = asr %v2, #19\nblock b0 freq 1\n  %v2 = load %v3, #44\n  jump ret\n?fault:8 4\
|func rand\nblock b0 freq 1\njump q?fault:3 5\
|func rand\nblock b0 freq 10 \n  %v0 = imm #60\nblock b1 freq 2\n  %v0 = ori %v0, #-7\n  %v0 = asr %v0,#30\n  jump b2\n?fault:7 5\
|func rand\nblock b0 freq 2\n  ret\nblock b1 freq 10\n  %v0 = call f0 %v0\nblock b2 freq 2\n  %v0 = mpyi %v0, %v0\n  jump b?fault:8 5\
|func rand %v0\nblock b0 freq 1000\n  %v1 = imm #120\n  %v2 = imm #60\n  store %v1, #1848, %v2 \n  jump e\nblock b1 freq 1\n  %v0 = load %v2, #4\n  jump b1\n?fault:6 5\
|func rand %v0\nblock b0 freq 2 \n  store %v0, #-4, %v0\n  $p0 = cmpgt %v0, %v0\n  %v0 = load %v0, #40\n  store %v0, #4, %v0\n  store %v0, #36, %v0\n  %v0 = addi %v0, #25631\n  jump b1\n?fault:9 5\
|?fault:1 6\
| ?fault:2 6\
|func ra?fault:2 6\
|func rand %v0?fault:2 6\
|func rand %v0 %v1 %v?fault:2 6\
|func rand %v0 %v1 %v2 %v3\nblock b0 freq 10\n  ret\n  ret\n?fault:4 7\
|func rand %v0 %v1\nblock b0 freq 1000\n  %v1 = load %v1, #8\n  ret %v0\njump e?fault:5 7\
|func rand %v0\nblock b0 freq 1\n  store %v0, #-4, %v0\n  %v0 = asr %v0, #10\n  ret %v0\n  ret %v0\n?fault:6 7\
|func rand %v0 %v1\nblock b0 freq 2\n  store %v0, #-2248, %v0\n  jump b2\nblock b2 freq 1000\n  $p0 = cmpgt %v1, %v0\n  ret %v0\n  $p0 = cmpgt %v1, %v0\n?fault:8 7\
|func rand %v0\nblock b0 freq 1000\n  ret %v0\nblock b1 freq 1000\n  %v0 = imm #62\n  %v0 = sub %v0, %v0\n  %v0 = imm #160\n  %v0 = imm #2\n  ret %v0\n  ret %v0\n?fault:10 7\
|func rand %v0\nblock b0 freq 2?fault:2 8\
|func rand\nblock b0 freq 1\n  jump b1\nblock b1 freq 1\n?fault:4 8\
|func rand %v0 %v1 %v2\nblock b0 freq 1\n  %v3 = imm #48\n  if !$p0 jump b1\nblock b1 freq 1000\n?fault:5 8\
|func rand %v0\nblock b0 freq 10\n?fault:2 8\
|func rand %v0 %v1\nblock b0 freq 1\n ?fault:2 8\
|func rand %v0\nblock b0 freq 1\n  call f0 %v0, %v0, %v0\n  ret %v0\nblock b1 freq 1000\n  call f0 %v0, %v0, %v0, %v0, %v0, %v0\n  $p0 = cmpgtu %v0, %v0\n  store %v0,#60, %v0\n  $p = load %v0, #8\n?fault:9 10\
|func rand %v0\nblock b0 freq 1\n  ret %v?fault:2 12\
|func rand\nblock b0 freq 10\n  %v0 = imm #92\n  %v1 = load %v1, #8\n  ret %v1\n?fault:2 12\
|func rand %v0\nblock b0 freq 1000\n  %v0 = sub %v0, %v\n  %v0 = imm #192\n  ret\n?fault:2 12\
|func rand %v0 %v1\nblock b0 freq 1\n  %v0 = lsr %v0, #0\n  %v1 = imm #244\n  %v1 = imm #8\n  ret %v2\n?fault:2 12\
|func rand %v\nblock b0 freq 10\n  $p0 = cmpgtu %v0, %v0\n  %v0 = load %v0, #12\n  %v0 = ori %v0, #-314\n ret\n?fault:2 12\
|func rand %v0\nblock b0 freq 000 \n  ret jump ?fault:2 14\
|func rand %v0\nblock b0 freq 1\n  %v0 = load %v0, #36\n  %v0 = call f1 %v0\n  %v0 = call f2 %v0\n  call f1 %v0, %v0\nblock b1 freq 2\n  store %v0, #8, %v0\r\n  %v0 = load %v0, #-3048\n  ret %v0\nblock e freq 0?fault:11 14\
|func rand %v0\nblock b0 freq 0\n  store %v0, #28, %v0\n  %v0 = lad %v0, #-500\n $p ret %v0\n?fault:2 14\
|func rand %v0\nblock b0 freq 000\n  %v1 = imm #52\r\n  %v2 = imm #48\n  $p0 = cmpgti %v2, #305\n  ret %v0\n?fault:2 14\
|func rand %v0\nblock b0 freq 0\n  %v0 = load %v0, #56\n  %v0 = or %v0, %v0\n  %v0 = imm #-1\n  re #-0\njump e?fault:2 14";
