// Inputs with cuts, with their status and text.
use super::Case;

// The text where the first seal is cut, whatever its mask.
const SEAL_TEXT: &str = "session 0\n\
    0 0 mark 0 done\n\
    0 1 store 0 aa done\n\
    turns promote 0 0 evict 0 0 collect 0 0 drain 0 0\n\
    lines device 1 host 0 landed 0 dropped 0\n\
    moves promoted 0 retreated 0\n\
    flash reads 0 programs 1 seals 1 erases 0 faults 0\n\
    kept 2\n\
    pages 1\n\
    mark 0\n\
    line 0 0 aa000000000000000000000000000000000000000000000000000000000000000000000000000000000000000000000000000000000000000000000000000000\n\
    end\n\
    session 1\n\
    0 0 store 4096 bb done\n\
    turns promote 0 0 evict 0 0 collect 0 0 drain 0 0\n\
    lines device 1 host 0 landed 0 dropped 0\n\
    moves promoted 0 retreated 0\n\
    flash reads 0 programs 1 seals 1 erases 0 faults 0\n\
    kept 1\n\
    pages 2\n\
    mark 0\n\
    line 0 0 aa000000000000000000000000000000000000000000000000000000000000000000000000000000000000000000000000000000000000000000000000000000\n\
    line 1 0 bb000000000000000000000000000000000000000000000000000000000000000000000000000000000000000000000000000000000000000000000000000000\n\
    end\n";

// The text where an erase is cut, whatever its mask.
const ERASE_TEXT: &str = "session 0\n\
    0 0 store 0 a0 done\n\
    0 1 store 4096 a1 done\n\
    0 2 store 8192 a2 done\n\
    0 3 store 12288 a3 done\n\
    0 4 store 16384 a4 done\n\
    0 5 store 0 b0 done\n\
    0 6 store 4096 b1 done\n\
    turns promote 0 0 evict 0 0 collect 0 0 drain 0 0\n\
    lines device 7 host 0 landed 0 dropped 0\n\
    moves promoted 0 retreated 0\n\
    flash reads 3 programs 7 seals 7 erases 1 faults 0\n\
    kept 7\n\
    pages 5\n\
    line 0 0 b0000000000000000000000000000000000000000000000000000000000000000000000000000000000000000000000000000000000000000000000000000000\n\
    line 1 0 b1000000000000000000000000000000000000000000000000000000000000000000000000000000000000000000000000000000000000000000000000000000\n\
    line 2 0 a2000000000000000000000000000000000000000000000000000000000000000000000000000000000000000000000000000000000000000000000000000000\n\
    line 3 0 a3000000000000000000000000000000000000000000000000000000000000000000000000000000000000000000000000000000000000000000000000000000\n\
    line 4 0 a4000000000000000000000000000000000000000000000000000000000000000000000000000000000000000000000000000000000000000000000000000000\n\
    end\n\
    session 1\n\
    0 0 store 8192 b2 done\n\
    0 1 load 8192 1 b2\n\
    turns promote 0 0 evict 0 0 collect 0 0 drain 0 0\n\
    lines device 2 host 0 landed 0 dropped 0\n\
    moves promoted 0 retreated 0\n\
    flash reads 1 programs 1 seals 1 erases 0 faults 0\n\
    kept 2\n\
    pages 5\n\
    line 0 0 b0000000000000000000000000000000000000000000000000000000000000000000000000000000000000000000000000000000000000000000000000000000\n\
    line 1 0 b1000000000000000000000000000000000000000000000000000000000000000000000000000000000000000000000000000000000000000000000000000000\n\
    line 2 0 b2000000000000000000000000000000000000000000000000000000000000000000000000000000000000000000000000000000000000000000000000000000\n\
    line 3 0 a3000000000000000000000000000000000000000000000000000000000000000000000000000000000000000000000000000000000000000000000000000000\n\
    line 4 0 a4000000000000000000000000000000000000000000000000000000000000000000000000000000000000000000000000000000000000000000000000000000\n\
    end\n";

pub static CASES: [Case; 5] = [
    (
        "ways = 1\n\
        cut = [{at = 2, mask = 0, arrive = 0}]\n\
        ---\n\
        caller,op,a,b\n\
        0,mark,0,\n\
        0,store,0,aa\n\
        0,store,4096,bb\n",
        0,
        SEAL_TEXT,
    ),
    (
        "ways = 1\n\
        cut = [{at = 2, mask = 1, arrive = 0}]\n\
        ---\n\
        caller,op,a,b\n\
        0,mark,0,\n\
        0,store,0,aa\n\
        0,store,4096,bb\n",
        0,
        SEAL_TEXT,
    ),
    (
        "blocks = 4\n\
        per_block = 2\n\
        ways = 1\n\
        cut = [{at = 18, mask = 0, arrive = 0}]\n\
        ---\n\
        caller,op,a,b\n\
        0,store,0,a0\n\
        0,store,4096,a1\n\
        0,store,8192,a2\n\
        0,store,12288,a3\n\
        0,store,16384,a4\n\
        0,store,0,b0\n\
        0,store,4096,b1\n\
        0,store,8192,b2\n\
        0,load,8192,1\n",
        0,
        ERASE_TEXT,
    ),
    (
        "blocks = 4\n\
        per_block = 2\n\
        ways = 1\n\
        cut = [{at = 18, mask = 1, arrive = 0}]\n\
        ---\n\
        caller,op,a,b\n\
        0,store,0,a0\n\
        0,store,4096,a1\n\
        0,store,8192,a2\n\
        0,store,12288,a3\n\
        0,store,16384,a4\n\
        0,store,0,b0\n\
        0,store,4096,b1\n\
        0,store,8192,b2\n\
        0,load,8192,1\n",
        0,
        ERASE_TEXT,
    ),
    (
        "blocks = 4\n\
        per_block = 2\n\
        ways = 1\n\
        cut = [{at = 18, mask = 3, arrive = 0}]\n\
        ---\n\
        caller,op,a,b\n\
        0,store,0,a0\n\
        0,store,4096,a1\n\
        0,store,8192,a2\n\
        0,store,12288,a3\n\
        0,store,16384,a4\n\
        0,store,0,b0\n\
        0,store,4096,b1\n\
        0,store,8192,b2\n\
        0,load,8192,1\n",
        0,
        ERASE_TEXT,
    ),
];
