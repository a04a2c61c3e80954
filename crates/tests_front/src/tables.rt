//! Texts of tables: what they give, and why they give none.

use crate::rows::{About, all_answered};
use std::alloc::Global;
use un_base::memory_error::NoMemory;
use un_ir::text::{put_number, put_text};
use un_isa::op::Op;
use un_isa::reg_set::is_in_mask;
use un_isa::table::{Needs, Table, hexagon};
use un_target::error::{TableCause, TableError};
use un_target::fitting::fit;
use un_target::names::{ALL, name};
use un_target::reading::read_table;

/// Texts of tables, read by another program from the rules alone. `'` stands for `"`, `$` for the registers that HEXAGON saves, `^` for
/// an object's begin with no latencies and no needs, and `~` for its end with those registers and without `fresh`. Of a table stand the
/// latencies and needs that are not HEXAGON's, the registers that it saves besides, and `fresh`.
static ROWS: &[u8] = b"# Texts, each with its cause or the table that it gives.\
|^~?table:good\
|^~\n?table:good\
|^~\r\n\t ?table:good\
|{'latency' : {} ,\n'uses' : {} ,\n'saved' : [16 ,\n17 ,\n18 ,\n19 ,\n20 ,\n21 ,\n22 ,\n23 ,\n24 ,\n25 ,\n26 ,\n27] ,\n'fresh' : false}?\
table:good\
|?table:1 NotJson\
|\n?table:1 NotJson\
|null?table:2 BadShape\
|0?table:2 BadShape\
|''?table:2 BadShape\
|{}?table:2 BadShape\
|[^~]?table:2 BadShape\
|^~x?table:1 NotJson\
|^~^~?table:1 NotJson\
|^'saved':[$],'fresh':false?table:1 NotJson\
|'latency':{},'uses':{},~?table:1 NotJson\
|^'saved':[16,,17,18,19,20,21,22,23,24,25,26,27],'fresh':false}?table:1 NotJson\
|^'saved':[$,],'fresh':false}?table:1 NotJson\
|^'saved':[$],'fresh':False}?table:1 NotJson\
|^'saved':[$],'fresh':fals}?table:1 NotJson\
|^'saved':[$],'fresh':nan}?table:1 NotJson\
|^'saved':[$],'fresh':NaN}?table:1 NotJson\
|^'saved':[0$],'fresh':false}?table:1 NotJson\
|^'saved':[+$],'fresh':false}?table:1 NotJson\
|^'saved':[16.,17,18,19,20,21,22,23,24,25,26,27],'fresh':false}?table:1 NotJson\
|^'saved':[.$],'fresh':false}?table:1 NotJson\
|^'saved':[16e+,17,18,19,20,21,22,23,24,25,26,27],'fresh':false}?table:1 NotJson\
|^'saved':[--$],'fresh':false}?table:1 NotJson\
|^'saved':[1 6,17,18,19,20,21,22,23,24,25,26,27],'fresh':false}?table:1 NotJson\
|^'saved':[1_6,17,18,19,20,21,22,23,24,25,26,27],'fresh':false}?table:1 NotJson\
|^'saved':[$],fresh:false}?table:1 NotJson\
|^'saved':[$],'fresh' false}?table:1 NotJson\
|{'latency':{},,'uses':{},~?table:1 NotJson\
|{'latency':{},'uses':{'Load'},~?table:1 NotJson\
|{'latency':{},'uses':{1:2},~?table:1 NotJson\
|// x\n^~?table:1 NotJson\
|^~#?table:1 NotJson\
|^~\0?table:1 NotJson\
|^~\x0b?table:1 NotJson\
|\0^~?table:1 NotJson\
|^'saved':[$],'fre\nsh':false}?table:1 NotJson\
|^'saved':[$],'fre\\xsh':false}?table:1 NotJson\
|^'saved':[$],'\\ud800fresh':false}?table:1 NotJson\
|^'saved':[$],'\\udc00fresh':false}?table:1 NotJson\
|^'saved':[$],'fresh\\ud800':false}?table:1 NotJson\
|^'saved':[$],'fresh':1e309}?table:1 NotJson\
|^'saved':[$],'fresh':100000000000000000000000000000000000000000000000000000000000000000000000000000000000000000000000000000000000000000\
0000000000000000000000000000000000000000000000000000000000000000000000000000000000000000000000000000000000000000000000000000000000000000\
000000000000000000000000000000000000000000000000000000000000}?table:1 NotJson\
|^'saved':[1e400,$],'fresh':false}?table:1 NotJson\
|^'saved':[$],'fresh':{'a':{'a':{'a':{'a':{'a':{'a':{'a':{'a':{'a':{'a':{'a':{'a':{'a':{'a':{'a':{'a':{'a':{'a':{'a':{'a':{'a':{'a':{'a'\
:{'a':{'a':{'a':{'a':{'a':{'a':{'a':{'a':{'a':{'a':{'a':{'a':{'a':{'a':{'a':{'a':{'a':{'a':{'a':{'a':{'a':{'a':{'a':{'a':{'a':{'a':{'a':\
{'a':{'a':{'a':{'a':{'a':{'a':{'a':{'a':{'a':{'a':{'a':{'a':{'a':{'a':{'a':{'a':{'a':{'a':{'a':{'a':{'a':{'a':{'a':{'a':{'a':{'a':{'a':{\
'a':{'a':{'a':{'a':{'a':{'a':{'a':{'a':{'a':{'a':{'a':{'a':{'a':{'a':{'a':{'a':{'a':{'a':{'a':{'a':{'a':{'a':{'a':{'a':{'a':{'a':{'a':{'\
a':{'a':{'a':{'a':{'a':{'a':{'a':{'a':{'a':{'a':{'a':{'a':{'a':{'a':{'a':{'a':{'a':{'a':{'a':{'a':{'a':{'a':0}}}}}}}}}}}}}}}}}}}}}}}}}}}\
}}}}}}}}}}}}}}}}}}}}}}}}}}}}}}}}}}}}}}}}}}}}}}}}}}}}}}}}}}}}}}}}}}}}}}}}}}}}}}}}}}}}}}}}}}}}}}}}}}}}?table:2 BadShape\
|^'saved':[$],'fresh':{'a':{'a':{'a':{'a':{'a':{'a':{'a':{'a':{'a':{'a':{'a':{'a':{'a':{'a':{'a':{'a':{'a':{'a':{'a':{'a':{'a':{'a':{'a'\
:{'a':{'a':{'a':{'a':{'a':{'a':{'a':{'a':{'a':{'a':{'a':{'a':{'a':{'a':{'a':{'a':{'a':{'a':{'a':{'a':{'a':{'a':{'a':{'a':{'a':{'a':{'a':\
{'a':{'a':{'a':{'a':{'a':{'a':{'a':{'a':{'a':{'a':{'a':{'a':{'a':{'a':{'a':{'a':{'a':{'a':{'a':{'a':{'a':{'a':{'a':{'a':{'a':{'a':{'a':{\
'a':{'a':{'a':{'a':{'a':{'a':{'a':{'a':{'a':{'a':{'a':{'a':{'a':{'a':{'a':{'a':{'a':{'a':{'a':{'a':{'a':{'a':{'a':{'a':{'a':{'a':{'a':{'\
a':{'a':{'a':{'a':{'a':{'a':{'a':{'a':{'a':{'a':{'a':{'a':{'a':{'a':{'a':{'a':{'a':{'a':{'a':{'a':{'a':{'a':{'a':0}}}}}}}}}}}}}}}}}}}}}}\
}}}}}}}}}}}}}}}}}}}}}}}}}}}}}}}}}}}}}}}}}}}}}}}}}}}}}}}}}}}}}}}}}}}}}}}}}}}}}}}}}}}}}}}}}}}}}}}}}}}}}}}}}}?table:1 NotJson\
|[[[[[[[[[[[[[[[[[[[[[[[[[[[[[[[[[[[[[[[[[[[[[[[[[[[[[[[[[[[[[[[[[[[[[[[[[[[[[[[[[[[[[[[[[[[[[[[[[[[[[[[[[[[[[[[[[[[[[[[[[[[[[[[]]]]]]]]\
]]]]]]]]]]]]]]]]]]]]]]]]]]]]]]]]]]]]]]]]]]]]]]]]]]]]]]]]]]]]]]]]]]]]]]]]]]]]]]]]]]]]]]]]]]]]]]]]]]]]]]]]]]]]]]]]]]]]]]]?table:2 BadShape\
|[[[[[[[[[[[[[[[[[[[[[[[[[[[[[[[[[[[[[[[[[[[[[[[[[[[[[[[[[[[[[[[[[[[[[[[[[[[[[[[[[[[[[[[[[[[[[[[[[[[[[[[[[[[[[[[[[[[[[[[[[[[[[[[[]]]]]]]\
]]]]]]]]]]]]]]]]]]]]]]]]]]]]]]]]]]]]]]]]]]]]]]]]]]]]]]]]]]]]]]]]]]]]]]]]]]]]]]]]]]]]]]]]]]]]]]]]]]]]]]]]]]]]]]]]]]]]]]]]]?table:1 NotJso\
n\
|'aaaaaaaaaaaaaaaaaaaaaaaaaaaaaaaaaaaaaaaaaaaaaaaaaaaaaaaaaaaaaaaaaaaaaa?table:1 NotJson\
|^'saved':[$],'fresh':false,'Fresh':true}?table:2 BadShape\
|^'saved':[$],'fresh ':false}?table:2 BadShape\
|{'uses':{},~?table:2 BadShape\
|^'saved':[$],'\\u0066resh':false}?table:good\
|^'saved':[$],'fresh':3,'fresh':true}?table:good fresh\
|^'saved':[$],'fresh':true,'fresh':3}?table:2 BadShape\
|^'saved':[$],'fresh':null}?table:2 BadShape\
|^'saved':[$],'fresh':1}?table:2 BadShape\
|^'saved':[$],'fresh':'true'}?table:2 BadShape\
|^'saved':[$],'fresh':true}?table:good fresh\
|{'latency':[],'uses':{},~?table:2 BadShape\
|{'latency':null,'uses':{},~?table:2 BadShape\
|{'latency':{},'uses':[],~?table:2 BadShape\
|{'latency':{},'uses':'',~?table:2 BadShape\
|^'saved':16,'fresh':false}?table:2 BadShape\
|^'saved':null,'fresh':false}?table:2 BadShape\
|{'latency':{'load':1},'uses':{},~?table:2 BadShape\
|{'latency':{'':1},'uses':{},~?table:2 BadShape\
|{'latency':{'\\u004coad':1},'uses':{},~?table:good Load=1\
|{'latency':{'JumpNew':1},'uses':{},~?table:2 BadShape\
|{'latency':{},'uses':{'load':[1,0,0,0]},~?table:2 BadShape\
|{'latency':{},'uses':{'Load':[1,0,0,0,0]},~?table:2 BadShape\
|{'latency':{},'uses':{'Load':[]},~?table:2 BadShape\
|{'latency':{},'uses':{'Load':{'mem':1}},~?table:2 BadShape\
|{'latency':{},'uses':{'Load':null},~?table:2 BadShape\
|{'latency':{},'uses':{'Nop':[0,0,0,0],'Nope':[0,0,0,0]},~?table:2 BadShape\
|{'latency':{},'uses':{'Load':[9,9,9,9],'Add':[1]},~?table:2 BadShape\
|{'latency':{'Load':0},'uses':{},~?table:3 BadLatency\
|{'latency':{'Load':1.0},'uses':{},~?table:3 BadLatency\
|{'latency':{'Load':2.0},'uses':{},~?table:3 BadLatency\
|{'latency':{'Load':10e-1},'uses':{},~?table:3 BadLatency\
|{'latency':{'Load':-1},'uses':{},~?table:3 BadLatency\
|{'latency':{'Load':0.0},'uses':{},~?table:3 BadLatency\
|{'latency':{'Load':'1'},'uses':{},~?table:3 BadLatency\
|{'latency':{'Load':true},'uses':{},~?table:3 BadLatency\
|{'latency':{'Load':[1]},'uses':{},~?table:3 BadLatency\
|{'latency':{'Load':18446744073709551615},'uses':{},~?table:3 BadLatency\
|{'latency':{'Load':18446744073709551616},'uses':{},~?table:3 BadLatency\
|{'latency':{'Load':1E0},'uses':{},~?table:3 BadLatency\
|{'latency':{'Load':1},'uses':{},~?table:good Load=1\
|{'latency':{'Store':2},'uses':{},~?table:3 BadLatency\
|{'latency':{'Store':1},'uses':{},~?table:good\
|{'latency':{'Spill':2},'uses':{},~?table:3 BadLatency\
|{'latency':{'Spill':2},'uses':{},'saved':[$],'fresh':true}?table:3 BadLatency\
|{'latency':{'Enter':2},'uses':{},'saved':[$],'fresh':true}?table:3 BadLatency\
|{'latency':{'Enter':1},'uses':{},~?table:good\
|{'latency':{'Leave':2},'uses':{},~?table:3 BadLatency\
|{'latency':{'Leave':1},'uses':{},~?table:good\
|{'latency':{'Jump':2},'uses':{},~?table:3 BadLatency\
|{'latency':{'Jump':2},'uses':{},'saved':[$],'fresh':true}?table:3 BadLatency\
|{'latency':{'JumpIf':2},'uses':{},'saved':[$],'fresh':true}?table:3 BadLatency\
|{'latency':{'JumpIf':1},'uses':{},~?table:good\
|{'latency':{'JumpIfNot':2},'uses':{},~?table:3 BadLatency\
|{'latency':{'JumpIfNot':1},'uses':{},~?table:good\
|{'latency':{'JumpIfNew':2},'uses':{},~?table:3 BadLatency\
|{'latency':{'JumpIfNew':2},'uses':{},'saved':[$],'fresh':true}?table:3 BadLatency\
|{'latency':{'JumpIfNotNew':2},'uses':{},'saved':[$],'fresh':true}?table:3 BadLatency\
|{'latency':{'JumpIfNotNew':1},'uses':{},~?table:good\
|{'latency':{'Jumpr':2},'uses':{},~?table:3 BadLatency\
|{'latency':{'Jumpr':1},'uses':{},~?table:good\
|{'latency':{'Nop':2},'uses':{},~?table:3 BadLatency\
|{'latency':{'Nop':2},'uses':{},'saved':[$],'fresh':true}?table:3 BadLatency\
|{'latency':{'CmpEq':2},'uses':{},~?table:good CmpEq=2\
|{'latency':{'CmpEq':1},'uses':{},~?table:good\
|{'latency':{'CmpGti':2},'uses':{},'saved':[$],'fresh':true}?table:3 BadLatency\
|{'latency':{'CmpGti':1},'uses':{},~?table:good\
|{'latency':{'Mov':2},'uses':{},~?table:good Mov=2\
|{'latency':{'Mov':1},'uses':{},~?table:good\
|{'latency':{'Call':2},'uses':{},~?table:good Call=2\
|{'latency':{'Call':1},'uses':{},~?table:good\
|{'latency':{'P2R':2},'uses':{},~?table:good P2R=2\
|{'latency':{'P2R':1},'uses':{},~?table:good\
|{'latency':{'R2P':2},'uses':{},~?table:good R2P=2\
|{'latency':{'R2P':1},'uses':{},~?table:good\
|{'latency':{'Reload':2},'uses':{},~?table:good\
|{'latency':{'Reload':1},'uses':{},~?table:good Reload=1\
|{'latency':{'Imm':2},'uses':{},~?table:good Imm=2\
|{'latency':{'Imm':1},'uses':{},~?table:good\
|{'latency':{'Mpyi':2},'uses':{},~?table:good\
|{'latency':{'Mpyi':1},'uses':{},~?table:good Mpyi=1\
|{'latency':{'Add':2},'uses':{},~?table:good Add=2\
|{'latency':{'Add':1},'uses':{},~?table:good\
|{'latency':{'Mux':2},'uses':{},~?table:good Mux=2\
|{'latency':{'Mux':1},'uses':{},~?table:good\
|{'latency':{'Load':3,'Load':1},'uses':{},~?table:good Load=1\
|{'latency':{'Load':1,'Load':3},'uses':{},~?table:3 BadLatency\
|{'latency':{'Load':3},'uses':{},'saved':[16,17,18,19,20,21,22,23,24,25,26,28],'fresh':false}?table:3 BadLatency\
|{'latency':{},'uses':{'Load':[1,0,0,0]},~?table:good\
|{'latency':{},'uses':{'Load':[0,0,0,0]},~?table:4 BadUse\
|{'latency':{},'uses':{'Load':[1,1,0,0]},~?table:good Load=1.1.0.0\
|{'latency':{},'uses':{'Load':[1,0,0,1]},~?table:good Load=1.0.0.1\
|{'latency':{},'uses':{'Load':[1.0,0,0,0]},~?table:4 BadUse\
|{'latency':{},'uses':{'Load':[1,0,0,-0]},~?table:4 BadUse\
|{'latency':{},'uses':{'Load':[1,0,0,'0']},~?table:4 BadUse\
|{'latency':{},'uses':{'Load':[1,0,0,null]},~?table:4 BadUse\
|{'latency':{},'uses':{'Load':[true,0,0,0]},~?table:4 BadUse\
|{'latency':{},'uses':{'Load':[1,0,0,1e0]},~?table:4 BadUse\
|{'latency':{},'uses':{'Load':[1,0,0,18446744073709551616]},~?table:4 BadUse\
|{'latency':{},'uses':{'Store':[1,0,0,0]},~?table:4 BadUse\
|{'latency':{},'uses':{'Call':[0,0,1,0]},~?table:4 BadUse\
|{'latency':{},'uses':{'Call':[0,0,1,1]},~?table:good\
|{'latency':{},'uses':{'Call':[1,1,1,1]},~?table:good Call=1.1.1.1\
|{'latency':{},'uses':{'JumpIfNew':[0,0,1,0]},~?table:4 BadUse\
|{'latency':{},'uses':{'P2R':[0,0,1,0]},~?table:good\
|{'latency':{},'uses':{'Nop':[0,0,0,0]},~?table:good\
|{'latency':{},'uses':{'Add':[0,0,1,0]},~?table:good Add=0.0.1.0\
|{'latency':{},'uses':{'Mov':[1,0,0,0]},~?table:good Mov=1.0.0.0\
|{'latency':{},'uses':{'Leave':[0,0,0,1]},~?table:good Leave=0.0.0.1\
|{'latency':{},'uses':{'Spill':[1,0,0,0]},~?table:4 BadUse\
|{'latency':{},'uses':{'Reload':[1,0,0,0]},~?table:good\
|{'latency':{},'uses':{'Reload':[0,0,0,0]},~?table:4 BadUse\
|{'latency':{},'uses':{'Load':[0,0,0,0]},'saved':[16,17,18,19,20,21,22,23,24,25,26,28],'fresh':false}?table:4 BadUse\
|{'latency':{},'uses':{'Load':[0,0,0,0],'Load':[1,0,0,0]},~?table:good\
|{'latency':{},'uses':{'Load':[1,0,0,0],'Load':[0,0,0,0]},~?table:4 BadUse\
|^'saved':[15,$],'fresh':false}?table:good saved+15\
|^'saved':[6,$],'fresh':false}?table:good saved+6\
|^'saved':[5,$],'fresh':false}?table:5 BadSaved\
|^'saved':[16,$],'fresh':false}?table:5 BadSaved\
|^'saved':[17,$],'fresh':false}?table:5 BadSaved\
|^'saved':[1.6e1,17,18,19,20,21,22,23,24,25,26,27],'fresh':false}?table:5 BadSaved\
|^'saved':[-0,$],'fresh':false}?table:5 BadSaved\
|^'saved':[null,$],'fresh':false}?table:5 BadSaved\
|^'saved':[15,15,$],'fresh':false}?table:5 BadSaved\
|^'saved':[4294967312,17,18,19,20,21,22,23,24,25,26,27],'fresh':false}?table:5 BadSaved\
|^'saved':[18446744073709551632,17,18,19,20,21,22,23,24,25,26,27],'fresh':false}?table:5 BadSaved\
|^'saved':[$,28],'fresh':false}?table:good saved+28\
|^'saved':[$,29],'fresh':false}?table:5 BadSaved\
|^'saved':[$,30],'fresh':false}?table:5 BadSaved\
|^'saved':[$,32],'fresh':false}?table:5 BadSaved\
|^'saved':[$,36],'fresh':false}?table:5 BadSaved\
|^'saved':[16,17,18,19,20,21,22,23,24,25,26,26,27],'fresh':false}?table:5 BadSaved\
|^'saved':[16,17,18,19,20,21,22,23,24,25,26,26],'fresh':false}?table:5 BadSaved\
|^'saved':[$,28,28],'fresh':false}?table:5 BadSaved\
|^'saved':[16,17,18,19,20,21,22,23,24,25,26,28,27],'fresh':false}?table:5 BadSaved\
|^'saved':[$,18446744073709551615],'fresh':false}?table:5 BadSaved\
|^'saved':[],'fresh':false}?table:5 BadSaved\
|^'saved':[15,$,28],'fresh':false}?table:good saved+15+28\
|^'saved':[16, 17, 18, 19, 20, 21, 22, 23, 24, 25, 26, 27],'fresh':false}?table:good\
|^'saved':[\n$],'fresh':false}?table:good\
|\xef\xbb\xbf^~?table:1 NotJson\
|^~\xc2\xa0?table:1 NotJson\
|{'latency':{'\xed\xa0\x80':1},'uses':{},~?table:1 NotJson\
|{'latency':{'\\ud83d\\ude00':1},'uses':{},~?table:2 BadShape\
|{'latency':{'\xf4\x90\x80\x80':1},'uses':{},~?table:1 NotJson";
/// Appends a text with its marks replaced.
fn put_whole(out: &mut Vec<u8>, text: &[u8]) -> Result<(), NoMemory> {
    for byte in text {
        match *byte {
            b'\'' => put_text(out, b"\"")?,
            b'$' => put_text(out, b"16,17,18,19,20,21,22,23,24,25,26,27")?,
            b'^' => put_text(out, b"{\"latency\":{},\"uses\":{},")?,
            b'~' => put_text(
                out,
                b"\"saved\":[16,17,18,19,20,21,22,23,24,25,26,27],\"fresh\":false}",
            )?,
            _ => put_text(out, &[*byte])?,
        }
    }
    Ok(())
}

/// Appends the name of an operation.
fn put_name(out: &mut Vec<u8>, op: Op) -> Result<(), NoMemory> {
    put_text(out, b" ")?;
    put_text(out, name(op).as_bytes())?;
    put_text(out, b"=")
}

/// Appends the latencies that are not HEXAGON's.
fn put_latencies(out: &mut Vec<u8>, t: &Table, usual: &Table) -> Result<(), NoMemory> {
    for (i, op) in ALL.iter().enumerate() {
        if t.lat[i] != usual.lat[i] {
            put_name(out, *op)?;
            put_number(out, u64::from(t.lat[i]))?;
        }
    }
    Ok(())
}

/// The needs as one number, a digit for each.
fn digits(n: Needs) -> [u8; 4] {
    [n.mem, n.store, n.xc, n.control]
}

/// Appends numbers, with points between them.
fn put_numbers(out: &mut Vec<u8>, numbers: [u8; 4]) -> Result<(), NoMemory> {
    for (i, n) in numbers.iter().enumerate() {
        if i != 0 {
            put_text(out, b".")?;
        }
        put_number(out, u64::from(*n))?;
    }
    Ok(())
}

/// Appends the needs that are not HEXAGON's.
fn put_needs(out: &mut Vec<u8>, t: &Table, usual: &Table) -> Result<(), NoMemory> {
    for (i, op) in ALL.iter().enumerate() {
        let numbers = digits(t.uses[i]);
        if numbers != digits(usual.uses[i]) {
            put_name(out, *op)?;
            put_numbers(out, numbers)?;
        }
    }
    Ok(())
}

/// Appends the registers that are saved and are not on HEXAGON, behind each of them whether a call clobbers it all the same.
fn put_saved(out: &mut Vec<u8>, t: &Table, usual: &Table) -> Result<(), NoMemory> {
    if t.saved != usual.saved {
        put_text(out, b" saved")?;
    }
    for r in 0..64 {
        if is_in_mask(t.saved, r) && !is_in_mask(usual.saved, r) {
            put_text(out, b"+")?;
            put_number(out, u64::from(r))?;
            put_text(
                out,
                if is_in_mask(t.clobbered, r) {
                    b"!"
                } else {
                    b""
                },
            )?;
        }
    }
    Ok(())
}

/// Appends what of a table is not HEXAGON's.
fn put_table(out: &mut Vec<u8>, t: &Table) -> Result<(), NoMemory> {
    let usual = hexagon();
    put_text(out, if fit(t) { b"good" } else { b"unfit" })?;
    put_latencies(out, t, &usual)?;
    put_needs(out, t, &usual)?;
    put_saved(out, t, &usual)?;
    put_text(out, if t.fresh { b" fresh" } else { b"" })
}

/// Appends a cause with its code.
fn put_cause(out: &mut Vec<u8>, cause: TableCause) -> Result<(), NoMemory> {
    put_number(out, u64::from(cause.code()))?;
    match cause {
        TableCause::NotJson => put_text(out, b" NotJson"),
        TableCause::BadShape => put_text(out, b" BadShape"),
        TableCause::BadLatency => put_text(out, b" BadLatency"),
        TableCause::BadUse => put_text(out, b" BadUse"),
        TableCause::BadSaved => put_text(out, b" BadSaved"),
    }
}

/// Appends what a text gives as a table.
pub(crate) fn put_of_table(alloc: Global, out: &mut Vec<u8>, text: &[u8]) -> Result<(), NoMemory> {
    let mut whole = Vec::new(alloc);
    put_whole(&mut whole, text)?;
    match read_table(alloc, whole.as_slice()) {
        Ok(t) => put_table(out, &t),
        Err(TableError::NoMemory) => Err(NoMemory),
        Err(TableError::Bad(cause)) => put_cause(out, cause),
    }
}

#[test]
fn answers_of_tables(rt: HostRuntime) {
    let well = matches!(all_answered(rt.alloc(), About::Tables, ROWS), Ok(true));
    assert!(rt; well);
}
