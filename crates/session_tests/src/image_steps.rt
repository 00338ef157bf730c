//! Images of words in commands: the lines of the steps.

use crate::given::expect_scripts;
use crate::image_files::imaged;
use crate::tables::table;

/// Images of the Thue-Morse word over `msd_2`.
const OVER_MSD_2: &str = table![
    (
        "image W g T:",
        "step 1 read 2 2\nstep 2 pad 3 2\nstep 3 valid 2 2\nstep 4 product 9 4\nstep 5 project 4 3\nstep 6 const 2 1\nstep 7 product 12 6\nstep 8 project 5 4\nstep 9 product 10 3\nstep 10 project 4 3\nstep 11 product 8 6\nstep 12 project 6 6\nstep 13 product 9 4\nstep 14 project 4 3\nstep 15 const 3 2\nstep 16 product 12 6\nstep 17 project 5 4\nstep 18 product 15 4\nstep 19 project 4 3\nstep 20 product 8 6\nstep 21 project 6 6\nstep 22 product 9 4\nstep 23 project 4 3\nstep 24 const 4 3\nstep 25 product 12 6\nstep 26 project 5 4\nstep 27 product 20 6\nstep 28 project 4 3\nstep 29 product 8 6\nstep 30 project 6 6\nstep 31 product 6 6\nstep 32 product 6 6\nstep 33 product 9 4\nstep 34 project 4 3\nstep 35 const 2 1\nstep 36 product 12 6\nstep 37 project 5 4\nstep 38 product 10 3\nstep 39 project 4 3\nstep 40 product 8 6\nstep 41 project 6 6\nstep 42 product 9 4\nstep 43 project 4 3\nstep 44 const 3 2\nstep 45 product 12 6\nstep 46 project 5 4\nstep 47 product 15 4\nstep 48 project 4 3\nstep 49 product 8 6\nstep 50 project 6 6\nstep 51 product 9 4\nstep 52 project 4 3\nstep 53 const 4 3\nstep 54 product 12 6\nstep 55 project 5 4\nstep 56 product 20 6\nstep 57 project 4 3\nstep 58 product 8 6\nstep 59 project 6 6\nstep 60 product 6 6\nstep 61 product 6 6\nstep 62 combine 6 6\n",
        0,
        64,
    ),
    (
        "image W one T:",
        "step 1 read 2 2\nstep 2 pad 3 2\nstep 3 valid 2 2\nstep 4 const 2 1\nstep 5 product 6 2\nstep 6 project 3 2\nstep 7 product 6 1\nstep 8 project 2 1\nstep 9 product 4 2\nstep 10 project 2 2\nstep 11 const 2 1\nstep 12 product 6 2\nstep 13 project 3 2\nstep 14 product 6 1\nstep 15 project 2 1\nstep 16 product 4 2\nstep 17 project 2 2\nstep 18 combine 2 2\n",
        0,
        64,
    ),
    (
        "image W swap T:",
        "step 1 read 2 2\nstep 2 pad 3 2\nstep 3 valid 2 2\nstep 4 const 2 1\nstep 5 product 6 2\nstep 6 project 3 2\nstep 7 product 6 1\nstep 8 project 2 1\nstep 9 product 4 2\nstep 10 project 2 2\nstep 11 const 2 1\nstep 12 product 6 2\nstep 13 project 3 2\nstep 14 product 6 1\nstep 15 project 2 1\nstep 16 product 4 2\nstep 17 project 2 2\nstep 18 combine 2 2\n",
        0,
        64,
    ),
    (
        "image W cst T:",
        "step 1 read 2 2\nstep 2 pad 3 2\nstep 3 valid 2 2\nstep 4 const 2 1\nstep 5 product 6 2\nstep 6 project 3 2\nstep 7 product 6 1\nstep 8 project 2 1\nstep 9 product 2 1\nstep 10 project 1 1\nstep 11 combine 1 1\n",
        0,
        64,
    ),
    (
        "image W two T:",
        "step 1 read 2 2\nstep 2 pad 3 2\nstep 3 valid 2 2\nstep 4 const 2 1\nstep 5 product 9 4\nstep 6 project 4 3\nstep 7 product 8 2\nstep 8 project 3 2\nstep 9 product 6 4\nstep 10 project 4 3\nstep 11 const 3 2\nstep 12 product 9 4\nstep 13 project 4 3\nstep 14 product 12 3\nstep 15 project 3 2\nstep 16 product 6 4\nstep 17 project 4 3\nstep 18 product 3 2\nstep 19 const 2 1\nstep 20 product 9 4\nstep 21 project 4 3\nstep 22 product 8 2\nstep 23 project 3 2\nstep 24 product 6 4\nstep 25 project 4 3\nstep 26 const 3 2\nstep 27 product 9 4\nstep 28 project 4 3\nstep 29 product 12 3\nstep 30 project 3 2\nstep 31 product 6 4\nstep 32 project 4 3\nstep 33 product 3 2\nstep 34 combine 2 2\n",
        0,
        64,
    ),
    (
        "image W same T:",
        "step 1 read 2 2\nstep 2 pad 3 2\nstep 3 valid 2 2\nstep 4 const 2 1\nstep 5 product 9 4\nstep 6 project 4 3\nstep 7 product 8 2\nstep 8 project 3 2\nstep 9 product 3 2\nstep 10 project 2 2\nstep 11 const 3 2\nstep 12 product 9 4\nstep 13 project 4 3\nstep 14 product 12 3\nstep 15 project 3 2\nstep 16 product 3 1\nstep 17 project 1 1\nstep 18 product 2 2\nstep 19 const 2 1\nstep 20 product 9 4\nstep 21 project 4 3\nstep 22 product 8 2\nstep 23 project 3 2\nstep 24 product 3 1\nstep 25 project 1 1\nstep 26 const 3 2\nstep 27 product 9 4\nstep 28 project 4 3\nstep 29 product 12 3\nstep 30 project 3 2\nstep 31 product 6 4\nstep 32 project 4 3\nstep 33 product 3 3\nstep 34 const 2 1\nstep 35 product 9 4\nstep 36 project 4 3\nstep 37 product 8 2\nstep 38 project 3 2\nstep 39 product 3 1\nstep 40 project 1 1\nstep 41 const 3 2\nstep 42 product 9 4\nstep 43 project 4 3\nstep 44 product 12 3\nstep 45 project 3 2\nstep 46 product 6 4\nstep 47 project 4 3\nstep 48 product 3 3\nstep 49 combine 4 4\n",
        0,
        64,
    ),
    (
        "image W neg T:",
        "step 1 read 2 2\nstep 2 pad 3 2\nstep 3 valid 2 2\nstep 4 const 2 1\nstep 5 product 9 4\nstep 6 project 4 3\nstep 7 product 8 2\nstep 8 project 3 2\nstep 9 product 6 4\nstep 10 project 4 3\nstep 11 const 3 2\nstep 12 product 9 4\nstep 13 project 4 3\nstep 14 product 12 3\nstep 15 project 3 2\nstep 16 product 6 4\nstep 17 project 4 3\nstep 18 product 3 2\nstep 19 const 2 1\nstep 20 product 9 4\nstep 21 project 4 3\nstep 22 product 8 2\nstep 23 project 3 2\nstep 24 product 6 4\nstep 25 project 4 3\nstep 26 const 3 2\nstep 27 product 9 4\nstep 28 project 4 3\nstep 29 product 12 3\nstep 30 project 3 2\nstep 31 product 6 4\nstep 32 project 4 3\nstep 33 product 3 2\nstep 34 combine 2 2\n",
        0,
        64,
    ),
    (
        "image W big T:",
        "step 1 read 2 2\nstep 2 pad 3 2\nstep 3 valid 2 2\nstep 4 const 2 1\nstep 5 product 6 2\nstep 6 project 3 2\nstep 7 product 6 1\nstep 8 project 2 1\nstep 9 product 4 2\nstep 10 project 2 2\nstep 11 const 2 1\nstep 12 product 6 2\nstep 13 project 3 2\nstep 14 product 6 1\nstep 15 project 2 1\nstep 16 product 4 2\nstep 17 project 2 2\nstep 18 combine 2 2\n",
        0,
        64,
    ),
    (
        "image W extra T:",
        "step 1 read 2 2\nstep 2 pad 3 2\nstep 3 valid 2 2\nstep 4 const 2 1\nstep 5 product 9 4\nstep 6 project 4 3\nstep 7 product 8 2\nstep 8 project 3 2\nstep 9 product 6 4\nstep 10 project 4 3\nstep 11 const 3 2\nstep 12 product 9 4\nstep 13 project 4 3\nstep 14 product 12 3\nstep 15 project 3 2\nstep 16 product 6 4\nstep 17 project 4 3\nstep 18 product 3 2\nstep 19 const 2 1\nstep 20 product 9 4\nstep 21 project 4 3\nstep 22 product 8 2\nstep 23 project 3 2\nstep 24 product 6 4\nstep 25 project 4 3\nstep 26 const 3 2\nstep 27 product 9 4\nstep 28 project 4 3\nstep 29 product 12 3\nstep 30 project 3 2\nstep 31 product 6 4\nstep 32 project 4 3\nstep 33 product 3 2\nstep 34 combine 2 2\n",
        0,
        64,
    ),
    (
        "image W fibm T:",
        "step 1 read 2 2\nstep 2 pad 3 2\nstep 3 valid 2 2\nstep 4 const 2 1\nstep 5 product 9 4\nstep 6 project 4 3\nstep 7 product 8 2\nstep 8 project 3 2\nstep 9 product 3 2\nstep 10 project 2 2\nstep 11 const 3 2\nstep 12 product 9 4\nstep 13 project 4 3\nstep 14 product 12 3\nstep 15 project 3 2\nstep 16 product 6 4\nstep 17 project 4 3\nstep 18 product 4 3\nstep 19 const 2 1\nstep 20 product 9 4\nstep 21 project 4 3\nstep 22 product 8 2\nstep 23 project 3 2\nstep 24 product 3 1\nstep 25 project 1 1\nstep 26 const 3 2\nstep 27 product 9 4\nstep 28 project 4 3\nstep 29 product 12 3\nstep 30 project 3 2\nstep 31 product 6 4\nstep 32 project 4 3\nstep 33 product 3 3\nstep 34 combine 3 3\n",
        0,
        64,
    ),
];

/// Images over `lsd_2` and `msd_fib`.
const OVER_OTHERS: &str = table![
    (
        "image W one L:",
        "step 1 read 2 2\nstep 2 pad 2 2\nstep 3 valid 2 2\nstep 4 const 2 1\nstep 5 product 6 2\nstep 6 project 3 2\nstep 7 product 5 1\nstep 8 project 2 1\nstep 9 product 4 2\nstep 10 project 2 2\nstep 11 const 2 1\nstep 12 product 6 2\nstep 13 project 3 2\nstep 14 product 5 1\nstep 15 project 2 1\nstep 16 product 4 2\nstep 17 project 2 2\nstep 18 combine 2 2\n",
        0,
        64,
    ),
    (
        "image W two L:",
        "step 1 read 2 2\nstep 2 pad 2 2\nstep 3 valid 2 2\nstep 4 const 2 1\nstep 5 product 9 4\nstep 6 project 5 3\nstep 7 product 7 2\nstep 8 project 3 2\nstep 9 product 6 4\nstep 10 project 4 3\nstep 11 const 3 2\nstep 12 product 9 4\nstep 13 project 5 3\nstep 14 product 8 3\nstep 15 project 4 2\nstep 16 product 6 4\nstep 17 project 4 3\nstep 18 product 5 2\nstep 19 const 2 1\nstep 20 product 9 4\nstep 21 project 5 3\nstep 22 product 7 2\nstep 23 project 3 2\nstep 24 product 6 4\nstep 25 project 4 3\nstep 26 const 3 2\nstep 27 product 9 4\nstep 28 project 5 3\nstep 29 product 8 3\nstep 30 project 4 2\nstep 31 product 6 4\nstep 32 project 4 3\nstep 33 product 5 2\nstep 34 combine 2 2\n",
        0,
        64,
    ),
    (
        "image W g L:",
        "step 1 read 2 2\nstep 2 pad 2 2\nstep 3 valid 2 2\nstep 4 product 9 4\nstep 5 project 5 3\nstep 6 const 2 1\nstep 7 product 12 6\nstep 8 project 7 4\nstep 9 product 9 3\nstep 10 project 4 3\nstep 11 product 8 6\nstep 12 project 6 6\nstep 13 product 9 4\nstep 14 project 5 3\nstep 15 const 3 2\nstep 16 product 12 6\nstep 17 project 7 4\nstep 18 product 10 4\nstep 19 project 5 3\nstep 20 product 8 6\nstep 21 project 6 6\nstep 22 product 9 4\nstep 23 project 5 3\nstep 24 const 4 3\nstep 25 product 12 6\nstep 26 project 7 4\nstep 27 product 13 6\nstep 28 project 7 3\nstep 29 product 8 6\nstep 30 project 6 6\nstep 31 product 24 12\nstep 32 product 24 8\nstep 33 product 9 4\nstep 34 project 5 3\nstep 35 const 2 1\nstep 36 product 12 6\nstep 37 project 7 4\nstep 38 product 9 3\nstep 39 project 4 3\nstep 40 product 8 6\nstep 41 project 6 6\nstep 42 product 9 4\nstep 43 project 5 3\nstep 44 const 3 2\nstep 45 product 12 6\nstep 46 project 7 4\nstep 47 product 10 4\nstep 48 project 5 3\nstep 49 product 8 6\nstep 50 project 6 6\nstep 51 product 9 4\nstep 52 project 5 3\nstep 53 const 4 3\nstep 54 product 12 6\nstep 55 project 7 4\nstep 56 product 13 6\nstep 57 project 7 3\nstep 58 product 8 6\nstep 59 project 6 6\nstep 60 product 24 12\nstep 61 product 24 8\nstep 62 combine 8 8\n",
        0,
        64,
    ),
    (
        "image W one F:",
        "step 1 read 3 2\nstep 2 pad 4 2\nstep 3 valid 3 2\nstep 4 const 2 1\nstep 5 product 37 16\nstep 6 project 17 16\nstep 7 product 24 2\nstep 8 project 3 2\nstep 9 product 5 2\nstep 10 project 3 2\nstep 11 const 2 1\nstep 12 product 37 16\nstep 13 project 17 16\nstep 14 product 24 2\nstep 15 project 3 2\nstep 16 product 5 2\nstep 17 project 3 2\nstep 18 combine 3 2\n",
        0,
        64,
    ),
    (
        "image W two F:",
        "step 1 read 3 2\nstep 2 pad 4 2\nstep 3 valid 3 2\nstep 4 const 2 1\nstep 5 product 131 83\nstep 6 project 62 40\nstep 7 product 58 10\nstep 8 project 11 10\nstep 9 product 14 11\nstep 10 project 11 10\nstep 11 const 3 2\nstep 12 product 131 83\nstep 13 project 62 40\nstep 14 product 73 11\nstep 15 project 11 10\nstep 16 product 14 10\nstep 17 project 10 9\nstep 18 product 11 10\nstep 19 const 2 1\nstep 20 product 131 83\nstep 21 project 62 40\nstep 22 product 58 10\nstep 23 project 11 10\nstep 24 product 14 11\nstep 25 project 11 10\nstep 26 const 3 2\nstep 27 product 131 83\nstep 28 project 62 40\nstep 29 product 73 11\nstep 30 project 11 10\nstep 31 product 14 10\nstep 32 project 10 9\nstep 33 product 11 10\nstep 34 combine 11 10\n",
        0,
        64,
    ),
    (
        "image W g F:",
        "step 1 read 3 2\nstep 2 pad 4 2\nstep 3 valid 3 2\nstep 4 product 83 41\nstep 5 project 33 23\nstep 6 const 2 1\nstep 7 product 260 185\nstep 8 project 131 71\nstep 9 product 104 23\nstep 10 project 24 23\nstep 11 product 28 24\nstep 12 project 22 21\nstep 13 product 83 41\nstep 14 project 33 23\nstep 15 const 3 2\nstep 16 product 260 185\nstep 17 project 131 71\nstep 18 product 133 24\nstep 19 project 24 23\nstep 20 product 28 24\nstep 21 project 22 20\nstep 22 product 83 41\nstep 23 project 33 23\nstep 24 const 4 3\nstep 25 product 260 185\nstep 26 project 131 71\nstep 27 product 164 28\nstep 28 project 24 23\nstep 29 product 28 23\nstep 30 project 21 20\nstep 31 product 23 22\nstep 32 product 23 22\nstep 33 product 83 41\nstep 34 project 33 23\nstep 35 const 2 1\nstep 36 product 260 185\nstep 37 project 131 71\nstep 38 product 104 23\nstep 39 project 24 23\nstep 40 product 28 24\nstep 41 project 22 21\nstep 42 product 83 41\nstep 43 project 33 23\nstep 44 const 3 2\nstep 45 product 260 185\nstep 46 project 131 71\nstep 47 product 133 24\nstep 48 project 24 23\nstep 49 product 28 24\nstep 50 project 22 20\nstep 51 product 83 41\nstep 52 project 33 23\nstep 53 const 4 3\nstep 54 product 260 185\nstep 55 project 131 71\nstep 56 product 164 28\nstep 57 project 24 23\nstep 58 product 28 23\nstep 59 project 21 20\nstep 60 product 23 22\nstep 61 product 23 22\nstep 62 combine 23 22\n",
        0,
        64,
    ),
    (
        "image W fibm F:",
        "step 1 read 3 2\nstep 2 pad 4 2\nstep 3 valid 3 2\nstep 4 const 2 1\nstep 5 product 131 83\nstep 6 project 62 40\nstep 7 product 58 10\nstep 8 project 11 10\nstep 9 product 14 10\nstep 10 project 10 8\nstep 11 const 3 2\nstep 12 product 131 83\nstep 13 project 62 40\nstep 14 product 73 11\nstep 15 project 11 10\nstep 16 product 14 10\nstep 17 project 10 9\nstep 18 product 10 9\nstep 19 const 2 1\nstep 20 product 131 83\nstep 21 project 62 40\nstep 22 product 58 10\nstep 23 project 11 10\nstep 24 product 11 1\nstep 25 project 1 1\nstep 26 const 3 2\nstep 27 product 131 83\nstep 28 project 62 40\nstep 29 product 73 11\nstep 30 project 11 10\nstep 31 product 14 10\nstep 32 project 10 9\nstep 33 product 10 9\nstep 34 combine 10 9\n",
        0,
        64,
    ),
];

/// Codings, constant words and words of more letters.
const OF_OTHERS: &str = table![
    (
        "image W one M:",
        "step 1 read 3 3\nstep 2 pad 4 3\nstep 3 valid 7 5\nstep 4 const 2 1\nstep 5 product 45 21\nstep 6 project 22 21\nstep 7 product 29 2\nstep 8 project 3 2\nstep 9 product 8 2\nstep 10 project 3 2\nstep 11 const 2 1\nstep 12 product 45 21\nstep 13 project 22 21\nstep 14 product 29 2\nstep 15 project 3 2\nstep 16 product 8 3\nstep 17 project 4 3\nstep 18 combine 6 5\n",
        0,
        64,
    ),
    (
        "image W two M:",
        "step 1 read 3 3\nstep 2 pad 4 3\nstep 3 valid 7 5\nstep 4 const 2 1\nstep 5 product 134 94\nstep 6 project 82 54\nstep 7 product 76 12\nstep 8 project 13 12\nstep 9 product 26 12\nstep 10 project 28 23\nstep 11 const 3 2\nstep 12 product 134 94\nstep 13 project 82 54\nstep 14 product 77 12\nstep 15 project 13 12\nstep 16 product 26 11\nstep 17 project 12 9\nstep 18 product 61 32\nstep 19 const 2 1\nstep 20 product 134 94\nstep 21 project 82 54\nstep 22 product 76 12\nstep 23 project 13 12\nstep 24 product 26 11\nstep 25 project 13 11\nstep 26 const 3 2\nstep 27 product 134 94\nstep 28 project 82 54\nstep 29 product 77 12\nstep 30 project 13 12\nstep 31 product 26 12\nstep 32 project 27 22\nstep 33 product 61 32\nstep 34 combine 33 32\n",
        0,
        64,
    ),
    (
        "image W four R:",
        "step 1 read 4 4\nstep 2 pad 5 4\nstep 3 valid 4 4\nstep 4 const 2 1\nstep 5 product 6 2\nstep 6 project 3 2\nstep 7 product 6 1\nstep 8 project 2 1\nstep 9 product 8 4\nstep 10 project 4 4\nstep 11 const 2 1\nstep 12 product 6 2\nstep 13 project 3 2\nstep 14 product 6 1\nstep 15 project 2 1\nstep 16 product 8 4\nstep 17 project 4 4\nstep 18 combine 4 4\n",
        0,
        64,
    ),
    (
        "image W fold P:",
        "step 1 read 4 4\nstep 2 pad 5 4\nstep 3 valid 4 4\nstep 4 const 2 1\nstep 5 product 6 2\nstep 6 project 3 2\nstep 7 product 6 1\nstep 8 project 2 1\nstep 9 product 8 4\nstep 10 project 4 4\nstep 11 const 2 1\nstep 12 product 6 2\nstep 13 project 3 2\nstep 14 product 6 1\nstep 15 project 2 1\nstep 16 product 8 4\nstep 17 project 4 4\nstep 18 combine 4 4\n",
        0,
        64,
    ),
    (
        "image W five D:",
        "step 1 read 2 2\nstep 2 pad 3 2\nstep 3 valid 2 2\nstep 4 const 2 1\nstep 5 product 9 4\nstep 6 project 4 3\nstep 7 product 8 2\nstep 8 project 3 2\nstep 9 product 6 3\nstep 10 project 3 3\nstep 11 const 3 2\nstep 12 product 9 4\nstep 13 project 4 3\nstep 14 product 12 3\nstep 15 project 3 2\nstep 16 product 3 1\nstep 17 project 1 1\nstep 18 product 3 3\nstep 19 const 2 1\nstep 20 product 9 4\nstep 21 project 4 3\nstep 22 product 8 2\nstep 23 project 3 2\nstep 24 product 3 1\nstep 25 project 1 1\nstep 26 const 3 2\nstep 27 product 9 4\nstep 28 project 4 3\nstep 29 product 12 3\nstep 30 project 3 2\nstep 31 product 6 3\nstep 32 project 3 3\nstep 33 product 3 3\nstep 34 const 2 1\nstep 35 product 9 4\nstep 36 project 4 3\nstep 37 product 8 2\nstep 38 project 3 2\nstep 39 product 6 3\nstep 40 project 3 3\nstep 41 const 3 2\nstep 42 product 9 4\nstep 43 project 4 3\nstep 44 product 12 3\nstep 45 project 3 2\nstep 46 product 3 1\nstep 47 project 1 1\nstep 48 product 3 3\nstep 49 const 2 1\nstep 50 product 9 4\nstep 51 project 4 3\nstep 52 product 8 2\nstep 53 project 3 2\nstep 54 product 3 1\nstep 55 project 1 1\nstep 56 const 3 2\nstep 57 product 9 4\nstep 58 project 4 3\nstep 59 product 12 3\nstep 60 project 3 2\nstep 61 product 6 3\nstep 62 project 3 3\nstep 63 product 3 3\nstep 64 combine 4 4\n",
        0,
        64,
    ),
    (
        "image W three O:",
        "step 1 read 1 1\nstep 2 pad 2 1\nstep 3 valid 1 1\nstep 4 product 9 4\nstep 5 project 4 3\nstep 6 const 2 1\nstep 7 product 12 6\nstep 8 project 5 4\nstep 9 product 10 3\nstep 10 project 4 3\nstep 11 product 4 3\nstep 12 project 3 3\nstep 13 product 9 4\nstep 14 project 4 3\nstep 15 const 3 2\nstep 16 product 12 6\nstep 17 project 5 4\nstep 18 product 15 4\nstep 19 project 4 3\nstep 20 product 4 1\nstep 21 project 1 1\nstep 22 product 9 4\nstep 23 project 4 3\nstep 24 const 4 3\nstep 25 product 12 6\nstep 26 project 5 4\nstep 27 product 20 6\nstep 28 project 4 3\nstep 29 product 4 1\nstep 30 project 1 1\nstep 31 product 3 3\nstep 32 product 3 3\nstep 33 product 9 4\nstep 34 project 4 3\nstep 35 const 2 1\nstep 36 product 12 6\nstep 37 project 5 4\nstep 38 product 10 3\nstep 39 project 4 3\nstep 40 product 4 1\nstep 41 project 1 1\nstep 42 product 9 4\nstep 43 project 4 3\nstep 44 const 3 2\nstep 45 product 12 6\nstep 46 project 5 4\nstep 47 product 15 4\nstep 48 project 4 3\nstep 49 product 4 3\nstep 50 project 3 3\nstep 51 product 9 4\nstep 52 project 4 3\nstep 53 const 4 3\nstep 54 product 12 6\nstep 55 project 5 4\nstep 56 product 20 6\nstep 57 project 4 3\nstep 58 product 4 1\nstep 59 project 1 1\nstep 60 product 3 3\nstep 61 product 3 3\nstep 62 product 9 4\nstep 63 project 4 3\nstep 64 const 2 1\nstep 65 product 12 6\nstep 66 project 5 4\nstep 67 product 10 3\nstep 68 project 4 3\nstep 69 product 4 1\nstep 70 project 1 1\nstep 71 product 9 4\nstep 72 project 4 3\nstep 73 const 3 2\nstep 74 product 12 6\nstep 75 project 5 4\nstep 76 product 15 4\nstep 77 project 4 3\nstep 78 product 4 1\nstep 79 project 1 1\nstep 80 product 9 4\nstep 81 project 4 3\nstep 82 const 4 3\nstep 83 product 12 6\nstep 84 project 5 4\nstep 85 product 20 6\nstep 86 project 4 3\nstep 87 product 4 3\nstep 88 project 3 3\nstep 89 product 1 1\nstep 90 product 3 3\nstep 91 combine 3 3\n",
        0,
        64,
    ),
    (
        "image W seven S:",
        "step 1 read 3 3\nstep 2 pad 3 3\nstep 3 valid 3 3\nstep 4 const 2 1\nstep 5 product 6 2\nstep 6 project 3 2\nstep 7 product 6 1\nstep 8 project 2 1\nstep 9 product 4 1\nstep 10 project 2 1\nstep 11 const 2 1\nstep 12 product 6 2\nstep 13 project 3 2\nstep 14 product 6 1\nstep 15 project 2 1\nstep 16 product 6 2\nstep 17 project 3 2\nstep 18 const 2 1\nstep 19 product 6 2\nstep 20 project 3 2\nstep 21 product 6 1\nstep 22 project 2 1\nstep 23 product 6 3\nstep 24 project 3 3\nstep 25 combine 3 3\n",
        0,
        64,
    ),
    (
        "image W sev2 S:",
        "step 1 read 3 3\nstep 2 pad 3 3\nstep 3 valid 3 3\nstep 4 const 2 1\nstep 5 product 9 4\nstep 6 project 4 3\nstep 7 product 8 2\nstep 8 project 3 2\nstep 9 product 3 1\nstep 10 project 1 1\nstep 11 const 3 2\nstep 12 product 9 4\nstep 13 project 4 3\nstep 14 product 12 3\nstep 15 project 3 2\nstep 16 product 9 3\nstep 17 project 4 3\nstep 18 product 4 3\nstep 19 const 2 1\nstep 20 product 9 4\nstep 21 project 4 3\nstep 22 product 8 2\nstep 23 project 3 2\nstep 24 product 3 2\nstep 25 project 2 2\nstep 26 const 3 2\nstep 27 product 9 4\nstep 28 project 4 3\nstep 29 product 12 3\nstep 30 project 3 2\nstep 31 product 9 5\nstep 32 project 5 4\nstep 33 product 5 4\nstep 34 combine 4 4\n",
        0,
        64,
    ),
    (
        "image W w7 Wide:",
        "step 1 read 7 7\nstep 2 pad 8 7\nstep 3 valid 7 7\nstep 4 const 2 1\nstep 5 product 6 2\nstep 6 project 3 2\nstep 7 product 6 1\nstep 8 project 2 1\nstep 9 product 14 7\nstep 10 project 7 7\nstep 11 const 2 1\nstep 12 product 6 2\nstep 13 project 3 2\nstep 14 product 6 1\nstep 15 project 2 1\nstep 16 product 14 7\nstep 17 project 7 7\nstep 18 const 2 1\nstep 19 product 6 2\nstep 20 project 3 2\nstep 21 product 6 1\nstep 22 project 2 1\nstep 23 product 14 7\nstep 24 project 7 7\nstep 25 combine 7 7\n",
        0,
        64,
    ),
];

/// Images over systems of users.
const OVER_USERS: &str = table![
    (
        "image W one X:",
        "step 1 read 3 2\nstep 2 order 21 6\nstep 3 product 31 18\nstep 4 project 14 9\nstep 5 product 10 4\nstep 6 read 17 16\nstep 7 pad 18 16\nstep 8 valid 49 16\nstep 9 product 24 2\nstep 10 project 3 2\nstep 11 product 61 24\nstep 12 project 17 16\nstep 13 product 55 25\nstep 14 project 22 16\nstep 15 read 3 2\nstep 16 pad 4 2\nstep 17 valid 3 2\nstep 18 const 2 1\nstep 19 product 37 16\nstep 20 project 17 16\nstep 21 product 24 2\nstep 22 project 3 2\nstep 23 product 5 2\nstep 24 project 3 2\nstep 25 const 2 1\nstep 26 product 37 16\nstep 27 project 17 16\nstep 28 product 24 2\nstep 29 project 3 2\nstep 30 product 5 2\nstep 31 project 3 2\nstep 32 combine 3 2\n",
        0,
        64,
    ),
    (
        "image W two X:",
        "step 1 read 3 2\nstep 2 order 21 6\nstep 3 product 31 18\nstep 4 project 14 9\nstep 5 product 10 4\nstep 6 read 17 16\nstep 7 pad 18 16\nstep 8 valid 49 16\nstep 9 product 24 2\nstep 10 project 3 2\nstep 11 product 61 24\nstep 12 project 17 16\nstep 13 product 55 25\nstep 14 project 22 16\nstep 15 read 3 2\nstep 16 pad 4 2\nstep 17 valid 3 2\nstep 18 const 2 1\nstep 19 product 131 83\nstep 20 project 62 40\nstep 21 product 58 10\nstep 22 project 11 10\nstep 23 product 14 11\nstep 24 project 11 10\nstep 25 const 3 2\nstep 26 product 131 83\nstep 27 project 62 40\nstep 28 product 73 11\nstep 29 project 11 10\nstep 30 product 14 10\nstep 31 project 10 9\nstep 32 product 11 10\nstep 33 const 2 1\nstep 34 product 131 83\nstep 35 project 62 40\nstep 36 product 58 10\nstep 37 project 11 10\nstep 38 product 14 11\nstep 39 project 11 10\nstep 40 const 3 2\nstep 41 product 131 83\nstep 42 project 62 40\nstep 43 product 73 11\nstep 44 project 11 10\nstep 45 product 14 10\nstep 46 project 10 9\nstep 47 product 11 10\nstep 48 combine 11 10\n",
        0,
        64,
    ),
    (
        "image W two Z:",
        "step 1 read 3 2\nstep 2 reverse 3 2\nstep 3 order 19 6\nstep 4 product 31 18\nstep 5 project 22 10\nstep 6 product 13 5\nstep 7 read 17 16\nstep 8 reverse 22 21\nstep 9 pad 55 21\nstep 10 valid 53 21\nstep 11 product 29 2\nstep 12 project 3 2\nstep 13 product 59 27\nstep 14 project 29 19\nstep 15 product 64 28\nstep 16 project 26 19\nstep 17 read 3 3\nstep 18 pad 4 3\nstep 19 valid 7 5\nstep 20 const 2 1\nstep 21 product 134 94\nstep 22 project 82 54\nstep 23 product 76 12\nstep 24 project 13 12\nstep 25 product 26 12\nstep 26 project 28 23\nstep 27 const 3 2\nstep 28 product 134 94\nstep 29 project 82 54\nstep 30 product 77 12\nstep 31 project 13 12\nstep 32 product 26 11\nstep 33 project 12 9\nstep 34 product 61 32\nstep 35 const 2 1\nstep 36 product 134 94\nstep 37 project 82 54\nstep 38 product 76 12\nstep 39 project 13 12\nstep 40 product 26 11\nstep 41 project 13 11\nstep 42 const 3 2\nstep 43 product 134 94\nstep 44 project 82 54\nstep 45 product 77 12\nstep 46 project 13 12\nstep 47 product 26 12\nstep 48 project 27 22\nstep 49 product 61 32\nstep 50 combine 33 32\n",
        0,
        64,
    ),
    (
        "image W one U5:",
        "step 1 read 1 1\nstep 2 order 3 2\nstep 3 product 9 4\nstep 4 project 4 3\nstep 5 product 4 2\nstep 6 read 3 2\nstep 7 pad 4 2\nstep 8 valid 3 2\nstep 9 product 6 1\nstep 10 project 2 1\nstep 11 product 9 3\nstep 12 project 3 2\nstep 13 product 9 3\nstep 14 project 3 2\nstep 15 read 1 1\nstep 16 pad 2 1\nstep 17 valid 1 1\nstep 18 const 2 1\nstep 19 product 6 2\nstep 20 project 3 2\nstep 21 product 6 1\nstep 22 project 2 1\nstep 23 product 2 1\nstep 24 project 1 1\nstep 25 combine 1 1\n",
        0,
        64,
    ),
    (
        "image W two Bi:",
        "step 1 read 1 1\nstep 2 order 3 2\nstep 3 product 9 4\nstep 4 project 4 3\nstep 5 product 4 2\nstep 6 read 3 2\nstep 7 pad 4 2\nstep 8 valid 3 2\nstep 9 product 6 1\nstep 10 project 2 1\nstep 11 product 9 3\nstep 12 project 3 2\nstep 13 product 9 3\nstep 14 project 3 2\nstep 15 read 2 2\nstep 16 pad 3 2\nstep 17 valid 2 2\nstep 18 const 2 1\nstep 19 product 9 4\nstep 20 project 4 3\nstep 21 product 8 2\nstep 22 project 3 2\nstep 23 product 6 4\nstep 24 project 4 3\nstep 25 const 3 2\nstep 26 product 9 4\nstep 27 project 4 3\nstep 28 product 12 3\nstep 29 project 3 2\nstep 30 product 6 4\nstep 31 project 4 3\nstep 32 product 3 2\nstep 33 const 2 1\nstep 34 product 9 4\nstep 35 project 4 3\nstep 36 product 8 2\nstep 37 project 3 2\nstep 38 product 6 4\nstep 39 project 4 3\nstep 40 const 3 2\nstep 41 product 9 4\nstep 42 project 4 3\nstep 43 product 12 3\nstep 44 project 3 2\nstep 45 product 6 4\nstep 46 project 4 3\nstep 47 product 3 2\nstep 48 combine 2 2\n",
        0,
        64,
    ),
];

/// Images of tables that are not minimal, and of a word that takes its own name.
const OF_TABLES: &str = table![
    (
        "image W g Un:",
        "step 1 read 2 2\nstep 2 pad 3 2\nstep 3 valid 2 2\nstep 4 product 9 4\nstep 5 project 4 3\nstep 6 const 2 1\nstep 7 product 12 6\nstep 8 project 5 4\nstep 9 product 10 3\nstep 10 project 4 3\nstep 11 product 8 6\nstep 12 project 6 6\nstep 13 product 9 4\nstep 14 project 4 3\nstep 15 const 3 2\nstep 16 product 12 6\nstep 17 project 5 4\nstep 18 product 15 4\nstep 19 project 4 3\nstep 20 product 8 6\nstep 21 project 6 6\nstep 22 product 9 4\nstep 23 project 4 3\nstep 24 const 4 3\nstep 25 product 12 6\nstep 26 project 5 4\nstep 27 product 20 6\nstep 28 project 4 3\nstep 29 product 8 6\nstep 30 project 6 6\nstep 31 product 6 6\nstep 32 product 6 6\nstep 33 product 9 4\nstep 34 project 4 3\nstep 35 const 2 1\nstep 36 product 12 6\nstep 37 project 5 4\nstep 38 product 10 3\nstep 39 project 4 3\nstep 40 product 8 6\nstep 41 project 6 6\nstep 42 product 9 4\nstep 43 project 4 3\nstep 44 const 3 2\nstep 45 product 12 6\nstep 46 project 5 4\nstep 47 product 15 4\nstep 48 project 4 3\nstep 49 product 8 6\nstep 50 project 6 6\nstep 51 product 9 4\nstep 52 project 4 3\nstep 53 const 4 3\nstep 54 product 12 6\nstep 55 project 5 4\nstep 56 product 20 6\nstep 57 project 4 3\nstep 58 product 8 6\nstep 59 project 6 6\nstep 60 product 6 6\nstep 61 product 6 6\nstep 62 combine 6 6\n",
        0,
        64,
    ),
    (
        "image W g Lead:",
        "step 1 read 4 4\nstep 2 pad 3 2\nstep 3 valid 2 2\nstep 4 product 9 4\nstep 5 project 4 3\nstep 6 const 2 1\nstep 7 product 12 6\nstep 8 project 5 4\nstep 9 product 10 3\nstep 10 project 4 3\nstep 11 product 8 6\nstep 12 project 6 6\nstep 13 product 9 4\nstep 14 project 4 3\nstep 15 const 3 2\nstep 16 product 12 6\nstep 17 project 5 4\nstep 18 product 15 4\nstep 19 project 4 3\nstep 20 product 8 6\nstep 21 project 6 6\nstep 22 product 9 4\nstep 23 project 4 3\nstep 24 const 4 3\nstep 25 product 12 6\nstep 26 project 5 4\nstep 27 product 20 6\nstep 28 project 4 3\nstep 29 product 8 6\nstep 30 project 6 6\nstep 31 product 6 6\nstep 32 product 6 6\nstep 33 product 9 4\nstep 34 project 4 3\nstep 35 const 2 1\nstep 36 product 12 6\nstep 37 project 5 4\nstep 38 product 10 3\nstep 39 project 4 3\nstep 40 product 8 6\nstep 41 project 6 6\nstep 42 product 9 4\nstep 43 project 4 3\nstep 44 const 3 2\nstep 45 product 12 6\nstep 46 project 5 4\nstep 47 product 15 4\nstep 48 project 4 3\nstep 49 product 8 6\nstep 50 project 6 6\nstep 51 product 9 4\nstep 52 project 4 3\nstep 53 const 4 3\nstep 54 product 12 6\nstep 55 project 5 4\nstep 56 product 20 6\nstep 57 project 4 3\nstep 58 product 8 6\nstep 59 project 6 6\nstep 60 product 6 6\nstep 61 product 6 6\nstep 62 combine 6 6\n",
        0,
        64,
    ),
    (
        "image W two Pairs:",
        "step 1 read 3 3\nstep 2 pad 4 3\nstep 3 valid 3 2\nstep 4 const 2 1\nstep 5 product 131 83\nstep 6 project 62 40\nstep 7 product 58 10\nstep 8 project 11 10\nstep 9 product 14 11\nstep 10 project 11 10\nstep 11 const 3 2\nstep 12 product 131 83\nstep 13 project 62 40\nstep 14 product 73 11\nstep 15 project 11 10\nstep 16 product 14 10\nstep 17 project 10 9\nstep 18 product 11 10\nstep 19 const 2 1\nstep 20 product 131 83\nstep 21 project 62 40\nstep 22 product 58 10\nstep 23 project 11 10\nstep 24 product 14 11\nstep 25 project 11 10\nstep 26 const 3 2\nstep 27 product 131 83\nstep 28 project 62 40\nstep 29 product 73 11\nstep 30 project 11 10\nstep 31 product 14 10\nstep 32 project 10 9\nstep 33 product 11 10\nstep 34 combine 11 10\n",
        0,
        64,
    ),
    (
        "image W g T::",
        "step 1 read 2 2\nstep 2 pad 3 2\nstep 3 valid 2 2\nstep 4 product 9 4\nstep 5 project 4 3\nstep 6 const 2 1\nstep 7 product 12 6\nstep 8 project 5 4\nstep 9 product 10 3\nstep 10 project 4 3\nstep 11 product 8 6\nstep 12 project 6 6\nstep 13 product 9 4\nstep 14 project 4 3\nstep 15 const 3 2\nstep 16 product 12 6\nstep 17 project 5 4\nstep 18 product 15 4\nstep 19 project 4 3\nstep 20 product 8 6\nstep 21 project 6 6\nstep 22 product 9 4\nstep 23 project 4 3\nstep 24 const 4 3\nstep 25 product 12 6\nstep 26 project 5 4\nstep 27 product 20 6\nstep 28 project 4 3\nstep 29 product 8 6\nstep 30 project 6 6\nstep 31 product 6 6\nstep 32 product 6 6\nstep 33 product 9 4\nstep 34 project 4 3\nstep 35 const 2 1\nstep 36 product 12 6\nstep 37 project 5 4\nstep 38 product 10 3\nstep 39 project 4 3\nstep 40 product 8 6\nstep 41 project 6 6\nstep 42 product 9 4\nstep 43 project 4 3\nstep 44 const 3 2\nstep 45 product 12 6\nstep 46 project 5 4\nstep 47 product 15 4\nstep 48 project 4 3\nstep 49 product 8 6\nstep 50 project 6 6\nstep 51 product 9 4\nstep 52 project 4 3\nstep 53 const 4 3\nstep 54 product 12 6\nstep 55 project 5 4\nstep 56 product 20 6\nstep 57 project 4 3\nstep 58 product 8 6\nstep 59 project 6 6\nstep 60 product 6 6\nstep 61 product 6 6\nstep 62 combine 6 6\n",
        0,
        64,
    ),
    (
        "image T two T:",
        "step 1 read 2 2\nstep 2 pad 3 2\nstep 3 valid 2 2\nstep 4 const 2 1\nstep 5 product 9 4\nstep 6 project 4 3\nstep 7 product 8 2\nstep 8 project 3 2\nstep 9 product 6 4\nstep 10 project 4 3\nstep 11 const 3 2\nstep 12 product 9 4\nstep 13 project 4 3\nstep 14 product 12 3\nstep 15 project 3 2\nstep 16 product 6 4\nstep 17 project 4 3\nstep 18 product 3 2\nstep 19 const 2 1\nstep 20 product 9 4\nstep 21 project 4 3\nstep 22 product 8 2\nstep 23 project 3 2\nstep 24 product 6 4\nstep 25 project 4 3\nstep 26 const 3 2\nstep 27 product 9 4\nstep 28 project 4 3\nstep 29 product 12 3\nstep 30 project 3 2\nstep 31 product 6 4\nstep 32 project 4 3\nstep 33 product 3 2\nstep 34 combine 2 2\n",
        0,
        63,
    ),
];

#[test]
fn images_over_msd_2_show_their_steps(rt: HostRuntime) {
    expect_scripts(&rt, rt.alloc(), imaged(), "walnut", OVER_MSD_2);
}

#[test]
fn images_over_lsd_2_and_msd_fib_show_their_steps(rt: HostRuntime) {
    expect_scripts(&rt, rt.alloc(), imaged(), "walnut", OVER_OTHERS);
}

#[test]
fn images_of_other_words_show_their_steps(rt: HostRuntime) {
    expect_scripts(&rt, rt.alloc(), imaged(), "walnut", OF_OTHERS);
}

#[test]
fn images_over_systems_of_users_show_their_steps(rt: HostRuntime) {
    expect_scripts(&rt, rt.alloc(), imaged(), "walnut", OVER_USERS);
}

#[test]
fn images_of_tables_show_their_steps(rt: HostRuntime) {
    expect_scripts(&rt, rt.alloc(), imaged(), "walnut", OF_TABLES);
}
